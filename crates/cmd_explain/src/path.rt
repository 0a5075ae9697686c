//! A path to the read of a scratch word that passes no store of the word.

ghost use Rattle.std.specs.Prelude.{◌≡◌, ◌≢◌, ◌+◌, ◌<◌, ◌≤◌, ◌↔◌, ℕ, length, reverse, IfNone, IfOk, IfSome, IsTrue};
ghost use Rattle.bpf_code.specs.Flow.{IsSuccessor, LeadsTo};
ghost use Rattle.bpf_code.specs.Scratch.{StoresWord};
ghost use Rattle.bpf_verify.specs.Faults.{IsUnwrittenAt};
ghost use Rattle.bpf_verify.specs.Paths.{Stores};
ghost use Rattle.cmd_explain.specs.CodePaths.{LeavesUnwritten};
ghost use Rattle.cmd_explain.specs.inner.Leading.{IsMarked, MarksFrom};

use bpf_code::Instr;
use std::alloc::{AllocError, Global};

/// Returns whether an instruction stores a scratch word.
fn stores(instr: Instr, word: u32) -> bool
    ensures { IsTrue result ↔ StoresWord instr word }
{
    match instr {
        Instr::Store(other) | Instr::StoreX(other) => word == other,
        _ => false,
    }
}

/// Returns the place, if it is marked.
fn marked(marks: &[bool], place: usize) -> Option<usize>
    ensures some { IfSome result (λ found. (found ≡ place) × IsMarked marks.now place) }
    ensures none { IfNone result (¬ IsMarked marks.now place) }
{
    if place < marks.len() && marks[place] {
        Some(place)
    } else {
        None
    }
}

/// Returns a marked place to which an instruction leads, if there is one.
fn next_marked(marks: &[bool], at: usize, instr: Instr) -> Option<usize>
    requires { at < 4096 }
    ensures some { IfSome result (λ next. IsMarked marks.now next × LeadsTo at instr next) }
    ensures none { IfNone result ((next : ℕ) → LeadsTo at instr next → ¬ IsMarked marks.now next) }
{
    match instr {
        Instr::Jump(skipped) => marked(marks, at + 1 + skipped as usize),
        Instr::Branch { jt, jf, .. } => match marked(marks, at + 1 + usize::from(jt)) {
            Some(next) => Some(next),
            None => marked(marks, at + 1 + usize::from(jf)),
        },
        Instr::RetK(_) | Instr::RetA => None,
        _ => marked(marks, at + 1),
    }
}

/// Marks a place that reaches a marked one without storing the word.
fn mark(code: &[Instr], word: u32, at: usize, marks: &mut [bool], place: usize)
    requires sized { length code.now ≤ 4096 }
    requires within { at < length code.now }
    requires before { place < at }
    requires room { length marks.old ≡ length code.now }
    requires later { MarksFrom code.now word at marks.old (place + 1) }
    ensures { MarksFrom code.now word at marks.new place }
{
    let instr = code[place];
    if stores(instr, word) {
        return;
    }
    match next_marked(marks, place, instr) {
        Some(_) => marks[place] = true,
        None => {}
    }
}

/// Marks the places from which a read is reached without a store of its word. It goes from the read back to place 0: all jumps lead
/// forward, so the successors of a place have their marks before it.
fn marks_to(alloc: Global, code: &[Instr], word: u32, at: usize) -> Result<Vec<bool>, AllocError>
    requires sized { length code.now ≤ 4096 }
    requires within { at < length code.now }
    ensures marks { IfOk result (λ marks. MarksFrom code.now word at marks.items 0) }
{
    let mut marks = vec![in alloc; false; code.len()]?;
    marks[at] = true;
    let mut place = at;
    while place > 0 {
        place -= 1;
        mark(code, word, at, &mut marks, place);
    }
    Ok(marks)
}

/// Returns the marked place to which a marked one leads.
fn next_of(code: &[Instr], word: u32, at: usize, marks: &[bool], here: usize) -> usize
    requires sized { length code.now ≤ 4096 }
    requires within { at < length code.now }
    requires marks { MarksFrom code.now word at marks.now 0 }
    requires marked { IsMarked marks.now here }
    requires before { here ≢ at }
    ensures marked { IsMarked marks.now result }
    ensures step { IsSuccessor code.now here result }
    ensures quiet { ¬ Stores code.now word here }
    ensures forward { here < result }
    ensures within { result ≤ at }
{
    prove!(here < at);
    match next_marked(marks, here, code[here]) {
        Some(next) => next,
        None => unreachable!(),
    }
}

/// Returns the places of a path to a read that passes no store of its word, in order and without the read.
pub(crate) fn path_to(
    alloc: Global,
    code: &[Instr],
    word: u32,
    at: usize,
) -> Result<Vec<usize>, AllocError>
    requires sized { length code.now ≤ 4096 }
    requires unwritten { IsUnwrittenAt code.now at word }
    ensures { IfOk result (λ path. LeavesUnwritten code.now at word (reverse path.items)) }
{
    let marks = marks_to(alloc, code, word, at)?;
    let mut path = Vec::new(alloc);
    let mut here = 0;
    while here != at {
        let next = next_of(code, word, at, &marks, here);
        path.push(here)?;
        here = next;
    }
    Ok(path)
}
