// Runs the library on worked cases; what it prints is held to the file stdout, which independent programs or the paper gave.
#![tactic(auto)]

mod counts;
mod erasures;
mod judge_all;
mod lost;
mod lost_set;
mod printing;
mod random;
mod small;
mod trial;
mod unused;

use std::io;

fn main(rt: HostRuntime) -> io::Result<()> {
    small::case_a(&rt)?;
    small::case_b_d(&rt)?;
    small::damaged(&rt)?;
    small::refused(&rt)?;
    lost::case_c(&rt)?;
    lost::three_chains(&rt)?;
    lost::masks(&rt)?;
    judge_all::totals(&rt)?;
    judge_all::by_strips(&rt)?;
    erasures::totals(&rt)
}
