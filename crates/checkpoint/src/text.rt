//! Writes clauses as a formula in DIMACS CNF.
ghost use Rattle.std.specs.Prelude.{◌≡◌, ◌++◌, [], codes, false, is_err};
ghost use Rattle.std.specs.Fmt.{signed_decimal};
ghost use Rattle.std.specs.List.{AllByRecursion};
ghost use Rattle.lrup_model.specs.CallerView.{IsKnown, clip_clause};
ghost use Rattle.lrup_text.specs.Writing.{PutsAll, WritesText};
ghost use Rattle.checkpoint.specs.Live.{entries_of, entry_of};
ghost use Rattle.checkpoint.specs.Printing.{clause_line, entry_text, formula_text, header_line, note};

use lrup_model::{ClauseMap, Clip, Id, Lit};
use lrup_text::{Sink, WriteBuffer, WriteFault};

/// Writes the formula over the variables 1 to `vars` with the clauses of the clips, in order. If a
/// clause's identity isn't its number in the new formula, a comment before the clause gives the
/// identity. If the sink fails, a prefix of the text was written. The call causes no events.
pub fn write_formula<M: ClauseMap, W: Sink>(
    map: &mut M,
    clips: &[Clip],
    vars: u32,
    sink: &mut W,
) -> Result<(), WriteFault>
    requires known { AllByRecursion (IsKnown (M.caller_view map.old)) clips.now }
    requires running { W.has_failed sink.old ≡ false }
    ensures text { WritesText result (W.written sink.old) (W.written sink.new)
        (formula_text vars (entries_of (M.caller_view map.old) clips.now)) }
    ensures failed { W.has_failed sink.new ≡ is_err result }
    ensures event { M.moves map.old map.new [] }
    ensures stays { M.caller_view map.new ≡ M.caller_view map.old }
{
    let mut buffer = WriteBuffer::new();
    put_header(&mut buffer, vars, clips.len(), sink)?;
    for (before, clip) in clips.iter().enumerate() {
        put_entry(&mut buffer, map, clip, before as u64 + 1, sink)?;
    }
    buffer.flush(sink)
}

/// Writes the header of a formula of `vars` variables and `count` clauses.
fn put_header<W: Sink>(
    buffer: &mut WriteBuffer,
    vars: u32,
    count: usize,
    sink: &mut W,
) -> Result<(), WriteFault>
    requires { W.has_failed sink.old ≡ false }
    ensures puts { PutsAll result (W.written sink.old) (W.written sink.new)
        buffer.old buffer.new (header_line vars count) }
    ensures failed { W.has_failed sink.new ≡ is_err result }
{
    buffer.put(b"p cnf ", sink)?;
    buffer.put_number(vars as u64, sink)?;
    buffer.put(b" ", sink)?;
    buffer.put_number(count as u64, sink)?;
    buffer.put(b"\n", sink)
}

/// Writes the clip's clause, with its note, as clause number `place` of the new formula.
fn put_entry<M: ClauseMap, W: Sink>(
    buffer: &mut WriteBuffer,
    map: &mut M,
    clip: &Clip,
    place: u64,
    sink: &mut W,
) -> Result<(), WriteFault>
    requires known { IsKnown (M.caller_view map.old) clip.now }
    requires running { W.has_failed sink.old ≡ false }
    ensures puts { PutsAll result (W.written sink.old) (W.written sink.new)
        buffer.old buffer.new (entry_text place (entry_of (M.caller_view map.old) clip.now)) }
    ensures failed { W.has_failed sink.new ≡ is_err result }
    ensures event { M.moves map.old map.new [] }
    ensures stays { M.caller_view map.new ≡ M.caller_view map.old }
{
    put_note(buffer, clip.id(), place, sink)?;
    put_clause(buffer, map, clip, sink)
}

/// Writes the note of a clause, i.e. a comment with its identity, unless the identity is the
/// clause's number in the new formula.
fn put_note<W: Sink>(
    buffer: &mut WriteBuffer,
    id: Id,
    place: u64,
    sink: &mut W,
) -> Result<(), WriteFault>
    requires { W.has_failed sink.old ≡ false }
    ensures puts { PutsAll result (W.written sink.old) (W.written sink.new)
        buffer.old buffer.new (note id place) }
    ensures failed { W.has_failed sink.new ≡ is_err result }
{
    if id == place {
        return Ok(());
    }
    buffer.put(b"c id ", sink)?;
    buffer.put_number(id, sink)?;
    buffer.put(b"\n", sink)
}

/// Writes the literals of the clip's clause, in the order in which the map keeps them, and the end
/// of the line.
fn put_clause<M: ClauseMap, W: Sink>(
    buffer: &mut WriteBuffer,
    map: &mut M,
    clip: &Clip,
    sink: &mut W,
) -> Result<(), WriteFault>
    requires known { IsKnown (M.caller_view map.old) clip.now }
    requires running { W.has_failed sink.old ≡ false }
    ensures puts { PutsAll result (W.written sink.old) (W.written sink.new)
        buffer.old buffer.new (clause_line (clip_clause (M.caller_view map.old) clip.now)) }
    ensures failed { W.has_failed sink.new ≡ is_err result }
    ensures event { M.moves map.old map.new [] }
    ensures stays { M.caller_view map.new ≡ M.caller_view map.old }
{
    for i in 0..clip.pairs() {
        let (first, second) = map.pair(clip, i);
        put_literal(buffer, first, sink)?;
        if let Some(second) = second {
            put_literal(buffer, second, sink)?;
        }
    }
    buffer.put(b"0\n", sink)
}

/// Writes a literal, and a space after it.
#[inline]
fn put_literal<W: Sink>(buffer: &mut WriteBuffer, lit: Lit, sink: &mut W) -> Result<(), WriteFault>
    requires { W.has_failed sink.old ≡ false }
    ensures puts { PutsAll result (W.written sink.old) (W.written sink.new)
        buffer.old buffer.new (signed_decimal lit ++ codes " ") }
    ensures failed { W.has_failed sink.new ≡ is_err result }
{
    buffer.put_literal(lit.value(), sink)
}
