// The runner program again, over an input of its own: rt gives a program the input that stands in its crate.
#![tactic(auto)]

fn main(rt: HostRuntime) {
    console::run(&rt);
}
