// The board's program. The gate runs it on card B, with the lines of its stdin; tests/run runs it on the cases of tests/board, tests/data and demo.
#![tactic(auto)]

fn main(rt: HostRuntime) {
    session::run(&rt, &mut rt.stdin());
}
