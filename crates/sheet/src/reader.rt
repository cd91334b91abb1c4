// The lines in order. One reader carries the sheet and how far it has read: it is made where reading begins and handed on from line to line,
// and leaves each line to a function on the sheet and a place.
ghost use Rattle.std.specs.Prelude.{◌≡◌, ◌≤◌, length, replicate, MatchResult};
ghost use Rattle.tables.specs.Layout.{path_at};
ghost use Rattle.sheet.specs.Whole.{standing, unread, Stopped, Headed, Ranged, Filled, left_lines, Tabled};

use crate::formula::{Limits, Reached};
use crate::{arrays, formula, given, lines, procedures, ranges, words};
use specification::Refusal;
use text::Class;

// How far a sheet was read: what is declared, and where the next line begins.
#[derive(Clone, Copy)]
pub(crate) struct Progress {
    pub limits: Limits,
    pub reached: Reached,
}

impl Progress {
    // No token was read yet.
    fn standing(limits: Limits, at: usize) -> Progress
        ensures { result ≡ standing limits at }
    {
        Progress {
            limits,
            reached: Reached {
                first: 0,
                tokens: 0,
                bound: 0,
                at,
            },
        }
    }
}

#[derive(Clone, Copy)]
pub(crate) struct Reader<'a> {
    pub sheet: &'a [u8],
    pub read: Progress,
}

const LAST_EDITION: u32 = 3;

impl<'a> Reader<'a> {
    // Before the first line.
    pub fn new(sheet: &'a [u8], strict: bool) -> Reader<'a>
        ensures { (result.sheet ≡ sheet.entry) × (result.read ≡ unread strict) }
    {
        let limits = Limits {
            strict,
            edition: 0,
            scalars: 0,
            locals: 0,
            arrays: 0,
            procedures: 0,
            parameters: 0,
        };
        Reader {
            sheet,
            read: Progress::standing(limits, 0),
        }
    }

    // Behind a line without tokens: what is declared then, and where the next line begins.
    fn behind(self, limits: Limits, at: usize) -> Reader<'a>
        ensures { (result.sheet ≡ self.entry.sheet) × (result.read ≡ standing limits at) }
    {
        Reader {
            read: Progress::standing(limits, at),
            ..self
        }
    }

    // ---- the lines with one number

    pub fn edition(self) -> Result<Reader<'a>, Refusal>
        requires { Headed 0 self.sheet.now self.read }
        ensures { MatchResult result
            (λ r. (r.sheet ≡ self.entry.sheet) × (r.read.limits.strict ≡ self.entry.read.limits.strict) × Headed 1 r.sheet.now r.read)
            (Stopped self.entry.read.limits.strict self.entry.sheet.now) }
    {
        let d = self.read.limits;
        let (edition, at) = lines::count_line(
            self.sheet,
            self.read.reached.at,
            b"edition=",
            words::FIRST_EDITION,
            LAST_EDITION,
            Class::Feed,
        )?;
        Ok(self.behind(Limits { edition, ..d }, at))
    }

    pub fn scalars(self) -> Result<Reader<'a>, Refusal>
        requires { Headed 1 self.sheet.now self.read }
        ensures { MatchResult result
            (λ r. (r.sheet ≡ self.entry.sheet) × (r.read.limits.strict ≡ self.entry.read.limits.strict) × Headed 2 r.sheet.now r.read)
            (Stopped self.entry.read.limits.strict self.entry.sheet.now) }
    {
        let d = self.read.limits;
        let (scalars, at) = lines::count_line(
            self.sheet,
            self.read.reached.at,
            b"scalars=",
            0,
            tables::MAX_SCALARS,
            Class::Feed,
        )?;
        Ok(self.behind(Limits { scalars, ..d }, at))
    }

    pub fn locals(self) -> Result<Reader<'a>, Refusal>
        requires { Headed 2 self.sheet.now self.read }
        ensures { MatchResult result
            (λ r. (r.sheet ≡ self.entry.sheet) × (r.read.limits.strict ≡ self.entry.read.limits.strict) × Headed 3 r.sheet.now r.read)
            (Stopped self.entry.read.limits.strict self.entry.sheet.now) }
    {
        let d = self.read.limits;
        let (locals, at) = lines::count_line(
            self.sheet,
            self.read.reached.at,
            b"locals=",
            0,
            tables::MAX_LOCALS,
            Class::Feed,
        )?;
        Ok(self.behind(Limits { locals, ..d }, at))
    }

    // ---- the others

    // The line of arrays, and from edition 3 on that of ranges.
    pub fn arrays(self, w: &mut [u32]) -> Result<Reader<'a>, Refusal>
        requires { Headed 3 self.sheet.now self.read × (w.old ≡ replicate (length w.old) 0) × (path_at ≤ length w.old) }
        ensures { MatchResult result
            (λ r. (r.sheet ≡ self.entry.sheet) × (r.read.limits.strict ≡ self.entry.read.limits.strict)
            × Ranged r.sheet.now (length w.new) r.read w.new)
            (Stopped self.entry.read.limits.strict self.entry.sheet.now) }
    {
        let d = self.read.limits;
        let (read, at) = arrays::arrays_line(self.sheet, self.read.reached.at, d.scalars, w)?;
        let limits = Limits {
            arrays: read.count,
            ..d
        };
        let next = ranges::ranges_line(self.sheet, at, limits, w)?;
        Ok(self.behind(limits, next))
    }

    pub fn given(self, w: &mut [u32]) -> Result<Reader<'a>, Refusal>
        requires { Ranged self.sheet.now (length w.old) self.read w.old }
        ensures { MatchResult result
            (λ r. (r.sheet ≡ self.entry.sheet) × (r.read.limits.strict ≡ self.entry.read.limits.strict)
            × Filled (left_lines r.read.limits) r.sheet.now (length w.new) r.read w.new)
            (Stopped self.entry.read.limits.strict self.entry.sheet.now) }
    {
        let d = self.read.limits;
        let at = given::given_line(self.sheet, self.read.reached.at, d, w)?;
        Ok(self.behind(d, at))
    }

    // The lines of procedures, however many there are.
    pub fn procedures(self, w: &mut [u32]) -> Result<Reader<'a>, Refusal>
        requires { Filled (left_lines self.read.limits) self.sheet.now (length w.old) self.read w.old }
        ensures { MatchResult result
            (λ r. (r.sheet ≡ self.entry.sheet) × (r.read.limits.strict ≡ self.entry.read.limits.strict)
            × Filled 0 r.sheet.now (length w.new) r.read w.new)
            (Stopped self.entry.read.limits.strict self.entry.sheet.now) }
    {
        let read = procedures::procedure_lines(self.sheet, self.read, w)?;
        Ok(Reader { read, ..self })
    }

    // The formula's line and the sheet's end.
    pub fn formula(self, w: &mut [u32]) -> Result<Reader<'a>, Refusal>
        requires { Filled 0 self.sheet.now (length w.old) self.read w.old }
        ensures { MatchResult result
            (λ r. (r.sheet ≡ self.entry.sheet) × (r.read.limits.strict ≡ self.entry.read.limits.strict)
            × Tabled r.sheet.now (length w.new) r.read w.new)
            (Stopped self.entry.read.limits.strict self.entry.sheet.now) }
    {
        let limits = self.read.limits;
        let x = self.read.reached;
        let tokens = formula::formula_line(self.sheet, limits, x, w)?;
        let reached = Reached {
            first: x.tokens,
            tokens,
            bound: 0,
            at: self.sheet.len(),
        };
        Ok(Reader {
            read: Progress { limits, reached },
            ..self
        })
    }
}

// ---- all of them

// The reader is made here and stands at each line in turn. What was due while formulas were read still stands in the words.
pub(crate) fn all_lines(s: &[u8], strict: bool, w: &mut [u32]) -> Result<Progress, Refusal>
    requires { (w.old ≡ replicate (length w.old) 0) × (path_at ≤ length w.old) }
    ensures { MatchResult result
        (λ p. (p.limits.strict ≡ strict) × Tabled s.now (length w.new) p w.new)
        (Stopped strict s.now) }
{
    let reader = Reader::new(s, strict)
        .edition()?
        .scalars()?
        .locals()?
        .arrays(w)?
        .given(w)?
        .procedures(w)?
        .formula(w)?;
    Ok(reader.read)
}
