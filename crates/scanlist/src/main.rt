// The listing program: the recording on standard input.
#![tactic(auto)]

fn main(rt: HostRuntime) {
    stream::run(&rt, &mut rt.stdin());
}
