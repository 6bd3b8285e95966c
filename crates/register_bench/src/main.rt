//! Runs one kind of call on a register over the plane many times. With the arguments TASK SETS TURNS it prints a checksum of the
//! answers and the nanoseconds that the turns took; with none, the checksums of a short run of each task.
#![tactic(auto)]

ghost use Rattle.std.specs.Prelude.{◌≤◌};

use anyhow::{Context, anyhow};
use kinds::PlanePlace;
use register::{Register, RegisterFault, unused_slot};
use std::env;
use std::str::FromStr;
use std::time::Instant;

// The most sets that are present.
const MOST_SETS: u16 = 4095;

/// What is done in each turn.
#[derive(Clone, Copy)]
enum Task {
    /// A set moves to a place anywhere.
    Long,
    /// A set moves to the neighbouring cell, and the next time back.
    Short,
    /// The bucket of a set, at this size.
    Bucket(u16),
}

impl FromStr for Task {
    type Err = anyhow::Error;

    fn from_str(name: &str) -> anyhow::Result<Task> {
        match name {
            "long" => Ok(Task::Long),
            "short" => Ok(Task::Short),
            "bucket10" => Ok(Task::Bucket(10)),
            "bucket64" => Ok(Task::Bucket(64)),
            _ => Err(anyhow!("a task is long, short, bucket10 or bucket64")),
        }
    }
}

/// Marsaglia's 32-bit xorshift.
#[derive(Drop)]
struct Random {
    state: u32,
}

impl Random {
    fn next(&mut self) -> u32 {
        let mut x = self.state;
        x ^= x << 13;
        x ^= x >> 17;
        x ^= x << 5;
        self.state = x;
        x
    }

    fn coordinate(&mut self) -> u16 {
        (self.next() % 4096) as u16
    }

    // One of the sets 1 to `sets`; set 1 where that is none, or more than a register has.
    fn set(&mut self, sets: u16) -> u16
        ensures { 1 ≤ result }
    {
        match sets {
            1..=MOST_SETS => 1 + (self.next() % u32::from(sets)) as u16,
            _ => 1,
        }
    }
}

/// Where a set starts, the cell beside it, and whether it stands there.
#[derive(Clone, Copy)]
struct Walk {
    home: PlanePlace,
    beside: PlanePlace,
    away: bool,
}

impl Walk {
    // A walk that starts at a cell.
    fn from_cell(x: u16, y: u16) -> Walk {
        Walk {
            home: PlanePlace::new(x, y),
            beside: PlanePlace::new(x ^ 1, y),
            away: false,
        }
    }

    // A walk that starts anywhere.
    fn from_anywhere(random: &mut Random) -> Walk {
        let x = random.coordinate();
        let y = random.coordinate();
        Walk::from_cell(x, y)
    }

    // Where the set goes on a short move.
    fn next_door(&mut self) -> PlanePlace {
        self.away = !self.away;
        if self.away { self.beside } else { self.home }
    }
}

// A checksum with one number more.
fn mixed(sum: u64, x: &u16) -> u64 {
    sum.wrapping_mul(31).wrapping_add(u64::from(*x))
}

/// A register, the walks of its sets, set 1 first, and the numbers that choose among them.
#[derive(Drop)]
struct Scene<'a> {
    register: Register<'a, PlanePlace>,
    walks: &'a mut [Walk],
    random: Random,
    sets: u16,
}

impl Scene<'_> {
    // A set moves to a place where some set starts.
    fn long(&mut self) -> Result<(), RegisterFault> {
        let set = self.random.set(self.sets);
        let other = self.random.set(self.sets);
        let walk = self
            .walks
            .get(usize::from(other) - 1)
            .ok_or(RegisterFault::NoSuchSet)?;
        let place = walk.home;
        self.register.relocate(set, place)
    }

    // A set moves next door.
    fn short(&mut self) -> Result<(), RegisterFault> {
        let set = self.random.set(self.sets);
        let walk = self
            .walks
            .get_mut(usize::from(set) - 1)
            .ok_or(RegisterFault::NoSuchSet)?;
        let place = walk.next_door();
        self.register.relocate(set, place)
    }

    // A checksum of the bucket of a set.
    fn bucket_sum(&self, set: u16, size: u16, sum: u64) -> Result<u64, RegisterFault> {
        let bucket = self.register.bucket(set, size)?;
        let (ends, region) = (bucket.ends, bucket.region);
        let numbers = [
            ends.first,
            ends.last,
            region.x.low,
            region.x.high,
            region.y.low,
            region.y.high,
        ];
        Ok(numbers.iter().fold(sum, mixed))
    }

    // A checksum of the bucket of any set.
    fn bucket(&mut self, size: u16, sum: u64) -> Result<u64, RegisterFault> {
        let set = self.random.set(self.sets);
        self.bucket_sum(set, size, sum)
    }

    // The checksum of so many turns.
    fn turns<F: Fn(&mut Scene<'_>, u64) -> Result<u64, RegisterFault>>(
        &mut self,
        count: u32,
        turn: F,
    ) -> Result<u64, RegisterFault>
        requires { F.IsAlwaysCallable turn }
    {
        let mut sum = 0;
        for _ in 0..count {
            sum = turn(self, sum)?;
        }
        Ok(sum)
    }

    // A checksum of the buckets of all sets.
    fn all_buckets(&self, sum: u64) -> Result<u64, RegisterFault> {
        let mut sum = sum;
        for set in 1..=self.sets.min(MOST_SETS) {
            sum = self.bucket_sum(set, 10, sum)?;
        }
        Ok(sum)
    }
}

// The checksum of a run, and the nanoseconds that its turns took.
fn run<F: Fn(&mut Scene<'_>, u64) -> Result<u64, RegisterFault>>(
    rt: &HostRuntime,
    sets: u16,
    count: u32,
    turn: F,
) -> anyhow::Result<(u64, u128)>
    requires { F.IsAlwaysCallable turn }
{
    let mut random = Random { state: 1 };
    let mut walks = [Walk::from_cell(0, 0); 4095];
    for walk in walks.iter_mut().take(usize::from(sets)) {
        *walk = Walk::from_anywhere(&mut random);
    }
    let mut slots = [unused_slot(PlanePlace::new(0, 0)); 4096];
    let mut register = Register::new(&mut slots);
    for (set, walk) in (1..=sets.min(MOST_SETS)).zip(walks.iter()) {
        let _ = register.enter(set, walk.home);
    }
    let mut scene = Scene {
        register,
        walks: &mut walks,
        random,
        sets,
    };
    let start = Instant::now(rt)?;
    let sum = scene.turns(count, turn).ok().context("a call was refused")?;
    let time = start.elapsed(rt)?.as_nanos();
    let sum = scene.all_buckets(sum).ok().context("a bucket was refused")?;
    Ok((sum, time))
}

// A run whose turns do the task.
fn run_task(rt: &HostRuntime, task: Task, sets: u16, count: u32) -> anyhow::Result<(u64, u128)> {
    match task {
        Task::Long => run(rt, sets, count, |scene, sum| scene.long().map(|()| sum)),
        Task::Short => run(rt, sets, count, |scene, sum| scene.short().map(|()| sum)),
        Task::Bucket(size) => run(rt, sets, count, |scene, sum| scene.bucket(size, sum)),
    }
}

// Prints the checksum of a short run of each task.
fn check_all(rt: &HostRuntime) -> anyhow::Result<()> {
    for name in ["long", "short", "bucket10", "bucket64"] {
        let (sum, _) = run_task(rt, name.parse()?, 255, 1000)?;
        println!(rt; "{name} {sum}")?;
    }
    Ok(())
}

fn main(rt: HostRuntime) -> anyhow::Result<()> {
    let mut words = env::args(&rt)?.skip(1);
    let Some(name) = words.next() else {
        return check_all(&rt);
    };
    let task = name.parse()?;
    let sets = words.next().context("how many sets?")?;
    let count = words.next().context("how many turns?")?;
    let (sum, time) = run_task(&rt, task, sets.parse()?, count.parse()?)?;
    println!(rt; "{sum} {time}")?;
    Ok(())
}
