//! Laws of lines and streams. Each function does nothing: its contract is the law.
ghost use Rattle.lrup_text.specs.Laws.{
  OneText,
  OneLine,
  NoTextBegins,
  TextsAreLines,
  OneCut,
  OneFault,
  EmptyCut,
  CallsCut,
  EveryCut,
  BeginningCut,
  RefusedStays,
  OneFirstLine,
  EmptyPending,
};
ghost use Rattle.lrup_text.specs.Cubes.{TextHasNoFault, CubeTextIsRead};

/// A line has one text.
pub fn a_line_has_one_text()
    ensures { OneText }
{}

/// A text spells one line.
pub fn a_text_spells_one_line()
    ensures { OneLine }
{}

/// No line's text is a proper prefix of another line's text, so a written line is read back
/// whatever follows it.
pub fn no_text_begins_another()
    ensures { NoTextBegins }
{}

/// Bytes begin with the text of at most one line, so the rest after that text is fixed, too.
pub fn bytes_begin_with_one_line()
    ensures { OneFirstLine }
{}

/// What the grammar accepts within the limits of a stream is the text of a line.
pub fn texts_are_lines()
    ensures { TextsAreLines }
{}

/// A stream can be cut into lines in only one way.
pub fn a_stream_is_cut_in_one_way()
    ensures { OneCut }
{}

/// Every list of bytes can be cut into lines and a rest.
pub fn every_stream_is_cut()
    ensures { EveryCut }
{}

/// The lines of a prefix of a stream are the stream's first lines; its other lines are cut from the
/// prefix's rest and the bytes that follow.
pub fn a_beginning_is_cut_alike()
    ensures { BeginningCut }
{}

/// A refused text doesn't begin with a line, even if more bytes follow.
pub fn a_refused_text_holds_no_line()
    ensures { RefusedStays }
{}

/// A text has at most one fault, and none if it is a prefix of a line.
pub fn a_text_has_one_fault()
    ensures { OneFault }
{}

/// The empty text may still become a line.
pub fn no_bytes_may_become_a_line()
    ensures { EmptyPending }
{}

/// Cutting the empty text gives no lines.
pub fn no_bytes_have_no_lines()
    ensures { EmptyCut }
{}

/// The lines that a reader gives are those that the stream is cut into, however the stream is
/// divided into pieces.
pub fn calls_cut_the_stream()
    ensures { CallsCut }
{}

/// The text of a cube's literals is neither misspelled nor too long.
pub fn a_cube_has_no_text_fault()
    ensures { TextHasNoFault }
{}

/// If variables have at most 18 digits, bytes are a text of a cube exactly if they are the text of
/// literals over the variables, and the cube is the set of these literals.
pub fn a_cube_text_is_read()
    ensures { CubeTextIsRead }
{}
