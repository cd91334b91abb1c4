// One block of the listing, written into the rest of the output if all of it fits. A block is counted and written by the same
// functions: bytes beyond the lent memory's end are counted and not kept.
#![tactic(auto)]

ghost use Rattle.std.specs.Prelude.{◌≡◌, ◌≤◌, length};
ghost use Rattle.tables.specs.Layout.{max_cells};
ghost use Rattle.listing.specs.Put.{Put};
ghost use Rattle.listing.specs.Model.{Laid, Headed, model_text};
ghost use Rattle.listing.specs.Block.{Ready, Listed};

mod cells;
mod writer;

pub use writer::Writer;

// What a block begins with: its number; of an error the kind and the token too.
#[derive(Clone, Copy)]
pub enum Head {
    Answer { number: u32 },
    Error { number: u32, kind: u32, token: u32 },
}

// ---- the head

fn answer(out: &mut Writer, number: u32)
    requires { out.old.at ≡ 0 }
    ensures { Headed out.old out.new (Head.Answer number) }
{
    out.field(b"answer=", number as u64);
}

fn error(out: &mut Writer, number: u32, kind: u32, token: u32)
    requires { out.old.at ≡ 0 }
    ensures { Headed out.old out.new (Head.Error number kind token) }
{
    out.field(b"error=", number as u64);
    out.field(b"kind=", kind as u64);
    out.field(b"at=", token as u64);
}

fn top(out: &mut Writer, head: Head)
    requires { out.old.at ≡ 0 }
    ensures { Headed out.old out.new head }
{
    match head {
        Head::Answer { number } => answer(out, number),
        Head::Error {
            number,
            kind,
            token,
        } => error(out, number, kind, token),
    }
}

// ---- the block

// All of it from the start of the memory, or as much as there is room for. Gives its length.
fn block(memory: &mut [u8], w: &[u32], scalars: u32, arrays: u32, head: Head) -> usize
    requires { (Laid w.now arrays) × (scalars ≤ max_cells) }
    ensures { Put memory.old memory.new 0 (model_text w.now scalars arrays head) result }
{
    let mut out = Writer::new(memory);
    top(&mut out, head);
    cells::scalars(&mut out, w, scalars);
    cells::arrays(&mut out, w, arrays);
    out.at
}

// Its length, by writing it into no memory.
fn size(w: &[u32], scalars: u32, arrays: u32, head: Head) -> usize
    requires { (Laid w.now arrays) × (scalars ≤ max_cells) }
    ensures { result ≡ length (model_text w.now scalars arrays head) }
{
    let mut none = [0u8; 0];
    block(&mut none, w, scalars, arrays, head)
}

// The block of the cells' values, at the start of the rest of the output. Gives the bytes it takes; one that does not fit leaves no byte.
pub fn write(rest: &mut [u8], w: &[u32], scalars: u32, arrays: u32, head: Head) -> Option<usize>
    requires { Ready w.now scalars arrays }
    ensures { Listed w.now scalars arrays head rest.old rest.new result }
{
    let n = size(w, scalars, arrays, head);
    if rest.len() < n {
        return None;
    }
    block(rest, w, scalars, arrays, head);
    Some(n)
}
