// All works of a phase, beside one another.
ghost use Rattle.std.specs.Prelude.{◌≡◌, ◌+◌, ◌<◌, All, ℕ, length, slice_index_or};

use crate::Work;
use std::marker::{Send, Sync};
use std::thread;
use std::thread::Threads;

/// Calls `phase` of each work once, and returns when all calls have returned.
///
/// At most as many threads as there are works make the calls, the caller's thread among them. Where no thread can be
/// made, the calls come one after another, and none is left out. It returns only if each call does, so it waits where a
/// work waits (docs/levels.md, "Phases").
pub fn one_phase<R: Threads + Sync, C: Sync, W: Work<C>>(
    rt: &R,
    scene: &C,
    works: &mut [W],
    phase: u32,
)
    requires turn { All (λ w. W.next w ≡ phase) works.old }
    ensures same_number { length works.new ≡ length works.old }
    ensures counted { All (λ w. W.next w ≡ phase + 1) works.new }
    ensures each { (i : ℕ) (d : W) → i < length works.old → W.stands (slice_index_or works.old i d) (slice_index_or works.new i d) }
{
    let threads = works.len().max(1);
    thread::for_each_mut(
        rt,
        works,
        threads,
        &|_, work: &mut W| work.phase(scene, phase),
    );
}
