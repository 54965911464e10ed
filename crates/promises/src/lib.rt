// The promises of Lanwezik, each the contract of a function that does nothing: what it ensures is a theorem over the definitions that
// the calls' contracts cite. `specs/` says what each means.
#![tactic(auto)]

ghost use Rattle.promises.specs.Demand1.{Demand1};
ghost use Rattle.promises.specs.AnyImage.{AnyImage};
ghost use Rattle.promises.specs.Demand2.{EveryRun};
ghost use Rattle.promises.specs.EachBlock.{EachBlock};
ghost use Rattle.promises.specs.Demand3.{EveryHistory};
ghost use Rattle.promises.specs.Closure.{Closure};
ghost use Rattle.promises.specs.Console.{Console};
ghost use Rattle.promises.specs.Examples.{AllShown, examples};

// Any call, any content: every call answers, or refuses by the table, and hands back the given state.
pub fn demand_one()
    ensures { Demand1 }
{}

// The same for the calls that a console makes on its arrays, whatever they hold.
pub fn any_image()
    ensures { AnyImage }
{}

// Exactly the block rules, in every scan of a run.
pub fn demand_two()
    ensures { EveryRun }
{}

// The same clause by clause: what a block of a scan reads, and what a scan leaves as it was.
pub fn each_block()
    ensures { EachBlock }
{}

// No alarm is lost silently.
pub fn demand_three()
    ensures { EveryHistory }
{}

// A good state is handed back for a good state, so from fresh no call is refused with 5.
pub fn closure()
    ensures { Closure }
{}

// The library's calls over a run: what a console keeps and is answered is what the calls by value give.
pub fn console()
    ensures { Console }
{}

// P1 to P13.
pub fn worked_examples()
    ensures { AllShown examples }
{}
