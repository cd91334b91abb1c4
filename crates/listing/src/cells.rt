// The lines of the cells that have a value, from the work words (specs/Model.antt).
ghost use Rattle.std.specs.Prelude.{◌+◌, ◌<◌, ◌≤◌};
ghost use Rattle.specification.specs.Lines.{scalar, element};
ghost use Rattle.specification.specs.Listing.{cell_label, label_text, lines_text};
ghost use Rattle.tables.specs.Layout.{max_cells, max_arrays};
ghost use Rattle.listing.specs.Put.{Room, Writes};
ghost use Rattle.listing.specs.Model.{Sized, Spans, Laid, each_line, line_at, name_of, scalar_line, element_line, array_lines};

use crate::writer::Writer;

// ---- one cell

// What a cell is called: a scalar by its number, an element by those of its array and of itself.
#[derive(Clone, Copy)]
enum Name {
    Scalar(u32),
    Element(u32, u32),
}

// `v0`
#[inline(always)]
fn scalar_name(out: &mut Writer, n: u32)
    requires { Room out.old.at (label_text (cell_label (scalar n))) }
    ensures { Writes out.old out.new (label_text (cell_label (scalar n))) }
{
    out.byte(b'v');
    out.number(n as u64);
}

// `a0.2`
#[inline(always)]
fn element_name(out: &mut Writer, a: u32, e: u32)
    requires { Room out.old.at (label_text (cell_label (element a e))) }
    ensures { Writes out.old out.new (label_text (cell_label (element a e))) }
{
    out.byte(b'a');
    out.number(a as u64);
    out.byte(b'.');
    out.number(e as u64);
}

#[inline(always)]
fn label(out: &mut Writer, name: Name)
    requires { Room out.old.at (label_text (cell_label (name_of name))) }
    ensures { Writes out.old out.new (label_text (cell_label (name_of name))) }
{
    match name {
        Name::Scalar(n) => scalar_name(out, n),
        Name::Element(a, e) => element_name(out, a, e),
    }
}

// `v0=7` or `a0.2=-1`, if cell c has a value.
#[inline(always)]
fn cell(out: &mut Writer, w: &[u32], name: Name, c: u32)
    requires { (Sized w.now) × (c < max_cells) × (Room out.old.at (lines_text (line_at w.now (name_of name) c))) }
    ensures { Writes out.old out.new (lines_text (line_at w.now (name_of name) c)) }
{
    if tables::cell_flag(w, c) == 0 {
        return;
    }
    let v = tables::cell_value(w, c);
    label(out, name);
    out.ending(v);
}

// ---- all cells

// The n scalars.
pub(crate) fn scalars(out: &mut Writer, w: &[u32], n: u32)
    requires { (Sized w.now) × (n ≤ max_cells) × (Room out.old.at (lines_text (each_line (scalar_line w.now) 0 n))) }
    ensures { Writes out.old out.new (lines_text (each_line (scalar_line w.now) 0 n)) }
{
    for i in 0..n {
        cell(out, w, Name::Scalar(i), i);
    }
}

// The n elements of array a, whose first cell is c.
fn elements(out: &mut Writer, w: &[u32], a: u32, c: u32, n: u32)
    requires { (Sized w.now) × (c + n ≤ max_cells) × (Room out.old.at (lines_text (each_line (element_line w.now a c) 0 n))) }
    ensures { Writes out.old out.new (lines_text (each_line (element_line w.now a c) 0 n)) }
{
    for i in 0..n {
        cell(out, w, Name::Element(a, i), c + i);
    }
}

// The elements of array a.
fn array(out: &mut Writer, w: &[u32], a: u32)
    requires { (Sized w.now) × (a < max_arrays) × (Spans w.now a) × (Room out.old.at (lines_text (array_lines w.now a))) }
    ensures { Writes out.old out.new (lines_text (array_lines w.now a)) }
{
    let from = tables::first_cell(w, a);
    let to = tables::first_cell(w, a + 1);
    elements(out, w, a, from, to - from);
}

// The n arrays.
pub(crate) fn arrays(out: &mut Writer, w: &[u32], n: u32)
    requires { (Laid w.now n) × (Room out.old.at (lines_text (each_line (array_lines w.now) 0 n))) }
    ensures { Writes out.old out.new (lines_text (each_line (array_lines w.now) 0 n)) }
{
    for a in 0..n {
        array(out, w, a);
    }
}
