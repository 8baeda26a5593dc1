//! Calls `apply` in kind 8 as often as each line of the input says, as in `mul 3` for three million products, and prints the
//! sum of the values and the number of calls without one. `bench/arith/run` compares its time with that of the same in C.
#![tactic(auto)]

ghost use Rattle.std.specs.Prelude.{IsTrue};
ghost use Rattle.fort_arith.specs.Operators.{is_arithmetic};

use fort_arith::{Kind, Op, apply};
use std::io;

/// The sum of the values of some calls, wrapped to 64 bits, and how many calls had none.
#[derive(Drop)]
struct Tally {
    sum: i64,
    traps: u64,
}

impl Tally {
    /// A million calls more, over a fixed sequence of numbers that begins with `seed`.
    fn million(&mut self, op: Op, seed: u64)
        requires { IsTrue (is_arithmetic op) }
    {
        let mut state = seed;
        for _ in 0..1_000_000u32 {
            state = state
                .wrapping_mul(6_364_136_223_846_793_005)
                .wrapping_add(1_442_695_040_888_963_407);
            let a = state.cast_signed() >> 12;
            let b = (state % 65_536).cast_signed();
            match apply(op, Kind::I8, a, b) {
                Some(value) => self.sum = self.sum.wrapping_add(value),
                None => self.traps = self.traps.wrapping_add(1),
            }
        }
    }
}

fn operator(name: &str) -> Op
    ensures { IsTrue (is_arithmetic result) }
{
    match name {
        "add" => Op::Add,
        "sub" => Op::Sub,
        "mul" => Op::Mul,
        _ => Op::Div,
    }
}

fn main(rt: HostRuntime) -> io::Result<()> {
    for line in rt.lines(rt.alloc()) {
        let line = line?;
        let Some((name, millions)) = line.as_str().split_once(' ') else {
            continue;
        };
        let op = operator(name);
        let mut tally = Tally { sum: 0, traps: 0 };
        for seed in 0..millions.parse::<u64>().unwrap_or(1) {
            tally.million(op, seed);
        }
        println!(rt; "{name} {} {}", tally.sum, tally.traps)?;
    }
    Ok(())
}
