//! A disk in memory.

ghost use Rattle.std.specs.Prelude.{◌≡◌, ◌<◌, ◌≤◌, ◌+◌, ◌^◌, ◌⊎◌, ◌↔◌, ℕ, [], ◌∷◌, ◌++◌, length, List, Option, Some};
ghost use Rattle.std.specs.Prelude.{IsErr, IfOk, OnOk, OnErr, slice_range, is_ok, if◌then◌else◌};
ghost use Rattle.std.specs.List.{fold};
ghost use Rattle.yp_io.specs.Counts.{CountsFaults, next_count, faults_after};
ghost use Rattle.yp_io.specs.Disk.{IsImage, LeavesOnly, MayLeave, MayLeaveTorn, MayTear, IsDurable, written_at};
ghost use Rattle.yp_io.specs.Disk.{after_sync, overwritten};
ghost use Rattle.yp_memory.specs.inside.MemDisk.{Wrote, Synced, FailsNow, FailsBy, history_of, placed, crashed};
ghost use Rattle.yp_memory.specs.inside.MemSteps.{crash_of, after_crash_step, step_of, steps_of, current};

use crate::plan::Plan;
use std::alloc::{AllocError, Global};
use std::marker::Model;
use yp_io::{Disk, Failed, NoMemory, count_fault};

// A call that was done.
#[derive(Debug, Drop)]
enum DiskCall {
    Wrote { at: u64, piece: Vec<u8> },
    Synced,
}

/// A disk in memory, which tells its history. It keeps each write and sync.
#[derive(Debug, Drop)]
pub struct MemDisk {
    alloc: Global,
    first: Vec<u8>,
    // What a read gives, from the first write on.
    written: Option<Vec<u8>>,
    steps: Vec<DiskCall>,
    stop: Option<u64>,
    plan: Plan,
}

impl Model for MemDisk {
    ghost use Rattle.std.specs.Prelude.{◌≡◌};
    ghost use Rattle.yp_memory.specs.inside.MemDisk.{Platter, played};

    ghost Value = { Platter };

    ghost use Rattle.yp_memory.specs.inside.MemSteps.{steps_of, current};

    ghost view = { λ d. record {
      first = d.first.items;
      steps = steps_of d.steps.items;
      stop = d.stop;
      failing = d.plan.failing.items;
      calls = d.plan.calls;
      faults = d.plan.faults;
    } };

    ghost invariant = { λ d.
        current d.first.items d.written ≡ (played d.first.items (steps_of d.steps.items)).state.reads };
}

impl MemDisk {
    /// Has these bytes, all of them synced. From call `stop` on, and where a call's number stands in `failing`, a call
    /// fails and does nothing. Calls are numbered from 0.
    pub fn new(alloc: Global, bytes: Vec<u8>, stop: Option<u64>, failing: Vec<u64>) -> MemDisk
        ensures { result ≡ record {
          first = bytes.items;
          steps = [];
          stop = stop;
          failing = failing.items;
          calls = 0;
          faults = 0;
        } }
    {
        MemDisk {
            alloc,
            first: bytes,
            written: None,
            steps: Vec::new(alloc),
            stop,
            plan: Plan::new(failing),
        }
    }

    /// What a read gives.
    pub fn bytes(&self) -> &[u8]
        ensures { result.now ≡ (history_of self.now).state.reads }
    {
        readable(&self.first, &self.written)
    }

    /// What a crash may leave: the bytes of the last sync, with each write since then whose bit in `kept` is set. The
    /// lowest bit is that of the first of these writes, and those from the 64th on are dropped. Where a kept write
    /// begins behind one that was dropped, zeros stand between.
    pub fn crashed(&self, kept: u64) -> Result<Vec<u8>, NoMemory>
        ensures bytes { IfOk result (λ bytes. bytes.items ≡ crashed kept self.now.first self.now.steps) }
        ensures image { IfOk result (λ bytes. IsImage (history_of self.now).state bytes.items) }
    {
        match replay(self.alloc, kept, &self.first, &self.steps) {
            Ok(bytes) => Ok(bytes),
            Err(_) => Err(NoMemory),
        }
    }
}

// What a read gives.
fn readable<'a>(first: &'a [u8], written: &'a Option<Vec<u8>>) -> &'a [u8]
    ensures { result.now ≡ current first.now written.now }
{
    match written {
        Some(bytes) => bytes,
        None => first,
    }
}

// Counts a call, which fails from call `stop` on and where its number is listed.
fn start_call(stop: Option<u64>, plan: &mut Plan) -> Result<(), Failed>
    ensures fails { IsErr result ↔ FailsBy stop plan.old.failing.items plan.old.calls }
    ensures counts { plan.new ≡ record plan.old {
      calls = next_count plan.old.calls;
      faults = faults_after plan.old.faults result;
    } }
    ensures never_falls { plan.old.faults ≤ plan.new.faults }
{
    let stopped = match stop {
        Some(stop) => stop <= plan.calls,
        None => false,
    };
    plan.start_call()?;
    if stopped {
        return Err(count_fault(&mut plan.faults));
    }
    Ok(())
}

// Bytes with a piece over them, or past their end.
fn overwrite(alloc: Global, old: &[u8], at: u64, piece: &[u8]) -> Result<Vec<u8>, AllocError>
    ensures { IfOk result (λ new. new.items ≡ overwritten at piece.now old.now) }
{
    let start = (at as usize).min(old.len());
    let end = (at as usize).saturating_add(piece.len()).min(old.len());
    let mut new = old[..start].to_vec(alloc)?;
    new.extend_from_slice(piece)?;
    new.extend_from_slice(&old[end..])?;
    Ok(new)
}

// The same, with zeros up to where the piece begins.
fn place(alloc: Global, old: &[u8], at: u64, piece: &[u8]) -> Result<Vec<u8>, AllocError>
    ensures { IfOk result (λ new. new.items ≡ placed at piece.now old.now) }
{
    let mut padded = old.to_vec(alloc)?;
    padded.resize(old.len().max(at as usize), 0)?;
    overwrite(alloc, &padded, at, piece)
}

// What a read gives, what a crash leaves, and the bits of the writes to come.
#[derive(Drop)]
struct Crash {
    reads: Vec<u8>,
    image: Vec<u8>,
    bits: u64,
}

fn crash_step(
    alloc: Global,
    kept: u64,
    crash: &mut Crash,
    step: &DiskCall,
) -> Result<(), AllocError>
    ensures { OnOk result (crash_of crash.new ≡ after_crash_step kept (crash_of crash.old) (step_of step.now)) }
{
    match step {
        DiskCall::Wrote { at, piece } => {
            if crash.bits % 2 == 1 {
                crash.image = place(alloc, &crash.image, *at, piece)?;
            }
            crash.bits /= 2;
            crash.reads = overwrite(alloc, &crash.reads, *at, piece)?;
        }
        DiskCall::Synced => {
            crash.image = crash.reads.to_vec(alloc)?;
            crash.bits = kept;
        }
    }
    Ok(())
}

// What a crash leaves after these steps that keeps the writes whose bit is set.
fn replay(alloc: Global, kept: u64, first: &[u8], steps: &[DiskCall]) -> Result<Vec<u8>, AllocError>
    ensures { IfOk result (λ image. image.items ≡ crashed kept first.now (steps_of steps.now)) }
{
    let mut crash = Crash {
        reads: first.to_vec(alloc)?,
        image: first.to_vec(alloc)?,
        bits: kept,
    };
    for step in steps {
        crash_step(alloc, kept, &mut crash, step)?;
    }
    Ok(crash.image)
}

// Writes a piece, and keeps the step.
fn write_step(
    alloc: Global,
    first: &[u8],
    written: &mut Option<Vec<u8>>,
    steps: &mut Vec<DiskCall>,
    at: u64,
    piece: &[u8],
) -> Result<(), AllocError>
    ensures reads { OnOk result
        (current first.now written.new ≡ overwritten at piece.now (current first.now written.old)) }
    ensures steps { OnOk result (steps_of steps.new.items ≡ steps_of steps.old.items ++ Wrote at piece.now ∷ []) }
    ensures err { OnErr result (written.new ≡ written.old) }
    ensures err_steps { OnErr result (steps.new.items ≡ steps.old.items) }
{
    let new = overwrite(alloc, readable(first, written), at, piece)?;
    let piece = piece.to_vec(alloc)?;
    steps.push(DiskCall::Wrote { at, piece })?;
    *written = Some(new);
    Ok(())
}

// Keeps the step of a sync.
fn sync_step(steps: &mut Vec<DiskCall>) -> Result<(), AllocError>
    ensures steps { OnOk result (steps_of steps.new.items ≡ steps_of steps.old.items ++ Synced ∷ []) }
    ensures err { OnErr result (steps.new.items ≡ steps.old.items) }
{
    steps.push(DiskCall::Synced)?;
    Ok(())
}

impl Disk for MemDisk {
    ghost use Rattle.yp_io.specs.inside.DiskLaws as laws;
    ghost use Rattle.yp_memory.specs.inside.MemDiskLaws as mem;

    ghost history = { λ d. Some (history_of d) };

    ghost faults = { λ d. d.faults };

    ghost reads_image = { λ d. mem.reads_image d.first d.steps };

    ghost stays = { λ d. laws.stays (Some (history_of d)) };

    ghost only_now = { λ d. laws.only_now (Some (history_of d)) };

    ghost counts_now = { λ d e. laws.counts_now (Some (history_of d)) (Some (history_of e)) };

    ghost goes_on = { λ d e f.
        laws.goes_on (Some (history_of d)) (Some (history_of e)) (Some (history_of f)) };

    ghost splits = { λ d e f.
        laws.splits (Some (history_of d)) (Some (history_of e)) (Some (history_of f)) };

    fn len(&mut self) -> Result<u64, Failed>
        ensures length { IfOk result (λ n. n ≡ length (history_of self.old).state.reads) }
        ensures fails { IsErr result ↔ FailsNow self.old }
        ensures others { self.new ≡ record self.old {
          calls = next_count self.old.calls;
          faults = faults_after self.old.faults result;
        } }
        ensures same { Some (history_of self.new) ≡ Some (history_of self.old) }
        ensures cause { CountsFaults self.old.faults self.new.faults result }
    {
        start_call(self.stop, &mut self.plan)?;
        Ok(self.bytes().len() as u64)
    }

    fn read(&mut self, at: u64, buf: &mut [u8]) -> Result<(), Failed>
        requires { at + length buf.old ≤ length (history_of self.old).state.reads }
        ensures bytes { OnOk result
            (buf.new ≡ slice_range (history_of self.old).state.reads at (at + length buf.new)) }
        ensures err { OnErr result (buf.new ≡ buf.old) }
        ensures fails { IsErr result ↔ FailsNow self.old }
        ensures others { self.new ≡ record self.old {
          calls = next_count self.old.calls;
          faults = faults_after self.old.faults result;
        } }
        ensures same { Some (history_of self.new) ≡ Some (history_of self.old) }
        ensures cause { CountsFaults self.old.faults self.new.faults result }
    {
        start_call(self.stop, &mut self.plan)?;
        let start = at as usize;
        buf.copy_from_slice(&self.bytes()[start..start + buf.len()]);
        Ok(())
    }

    /// A write also fails where memory has run out. A write that fails does nothing.
    fn write_at(&mut self, at: u64, piece: &[u8]) -> Result<(), Failed>
        requires place { at ≤ length (history_of self.old).state.reads }
        requires room { at + length piece.now ≤ 2 ^ 62 }
        ensures fails { FailsNow self.old → IsErr result }
        ensures others { self.new ≡ record self.old {
          steps = (if is_ok result then self.old.steps ++ Wrote at piece.now ∷ [] else self.old.steps);
          calls = next_count self.old.calls;
          faults = faults_after self.old.faults result;
        } }
        ensures ok { OnOk result (Some (history_of self.new)
            ≡ Some (written_at at piece.now (history_of self.old))) }
        ensures err { OnErr result (MayTear at (length piece.now)
            (Some (history_of self.old)) (Some (history_of self.new))) }
        ensures crash { LeavesOnly
            (Some (history_of self.old)) (Some (history_of self.new))
            (MayLeaveTorn at (length piece.now) (Some (history_of self.old))) }
        ensures cause { CountsFaults self.old.faults self.new.faults result }
    {
        start_call(self.stop, &mut self.plan)?;
        let (first, written) = (&self.first, &mut self.written);
        if write_step(self.alloc, first, written, &mut self.steps, at, piece).is_err() {
            return Err(count_fault(&mut self.plan.faults));
        }
        Ok(())
    }

    /// A sync also fails where memory has run out.
    fn sync(&mut self) -> Result<(), Failed>
        ensures fails { FailsNow self.old → IsErr result }
        ensures others { self.new ≡ record self.old {
          steps = (if is_ok result then self.old.steps ++ Synced ∷ [] else self.old.steps);
          calls = next_count self.old.calls;
          faults = faults_after self.old.faults result;
        } }
        ensures ok { OnOk result (Some (history_of self.new)
            ≡ Some (after_sync (history_of self.old))) }
        ensures err { OnErr result
            (Some (history_of self.new) ≡ Some (history_of self.old)) }
        ensures crash { LeavesOnly
            (Some (history_of self.old)) (Some (history_of self.new))
            (MayLeave (Some (history_of self.old))) }
        ensures durable { OnOk result (IsDurable (Some (history_of self.new))) }
        ensures cause { CountsFaults self.old.faults self.new.faults result }
    {
        start_call(self.stop, &mut self.plan)?;
        if sync_step(&mut self.steps).is_err() {
            return Err(count_fault(&mut self.plan.faults));
        }
        Ok(())
    }

    /// It does nothing.
    fn release(&mut self)
        ensures others { self.new ≡ self.old }
        ensures same { Some (history_of self.new) ≡ Some (history_of self.old) }
        ensures faults { self.new.faults ≡ self.old.faults }
    {}
}
