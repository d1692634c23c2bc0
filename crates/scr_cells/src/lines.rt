//! The block that was printed last, and its lines.
ghost use Rattle.std.specs.Prelude.{◌≡◌, ◌≤◌, ◌+◌, ◌-◌, ◌++◌, ◌∷◌, [], if◌then◌else◌, drop, is_ok, length, slice_get, take, true, IfOk, None, OnOk, OnErr, Some};
ghost use Rattle.scr_nodes.specs.Live.{is_live};
ghost use Rattle.scr_nodes.specs.declared.node.Node.TheVariants as nodes;
ghost use Rattle.scr_figure_ids.specs.Families.{whole_family};
ghost use Rattle.scr_partial_sums.specs.Marks.{figure_of};
ghost use Rattle.scr_partial_sums.specs.declared.cell.Mark.{Mark as TheMark};
ghost use Rattle.scr_cells.specs.Block.{block_text, cell_line};
ghost use Rattle.scr_cells.specs.Lines.{IsBlock, IsLineOf, figure_line};
ghost use Rattle.scr_cells.specs.Table.{seen, table};
ghost use Rattle.scr_cells.specs.declared.lines.Line.{Line as TheLine};

use crate::bounds::bounds_of;
use crate::printing::push_bounds;
use crate::table::{CELL_COUNT, Entry, entry_of};
use scr_figure_ids::family;
use scr_nodes::Node;
use scr_partial_sums::{Figure, Mark};
use scr_tree::Engine;
use std::alloc::{AllocError as NoMemory, Global};
use std::marker::Model;

/// As many bytes as a block mostly has at the most.
const BLOCK: usize = 6_000;

/// As many bytes as a line mostly has at the most.
const LINE: usize = 100;

/// What is kept of a cell's line: the mark of the figure that it tells where that is narrow, the family of the figure that the cell shows,
/// and how many bytes the line has. It has no mark and no bytes where it was not formed yet.
#[derive(Clone, Copy)]
pub(crate) struct Line {
    // The widest field stands first: so a line takes the least room.
    mark: Option<Mark>,
    family: u32,
    bytes: usize,
}

/// The block that was printed last, with its lines from the first on: that of a narrow figure is not formed anew where the figure is the
/// same. Contracts see the text of the block.
#[derive(Drop)]
pub struct Lines {
    lines: Vec<Line>,
    text: Vec<u8>,
}

impl Model for Lines {
    ghost use Rattle.std.specs.Prelude.{ℕ, List};
    ghost use Rattle.scr_cells.specs.Lines.{IsBlock};

    ghost Value = { List ℕ };

    ghost view = { λ printed. printed.text.items };

    ghost invariant = { λ printed. IsBlock printed.lines.items printed.text.items };
}

impl Lines {
    /// Nothing was printed.
    pub fn new(alloc: Global) -> Lines
        ensures { result ≡ [] }
    {
        Lines {
            lines: Vec::new(alloc),
            text: Vec::new(alloc),
        }
    }

    /// Appends the block of the engine's book: a line for each cell, with its name, a lower and an upper bound of its figure in
    /// euros, and `close` where it rests on a choice that is left open. Where memory is refused, nothing is appended.
    pub fn print(
        &mut self,
        alloc: Global,
        engine: &Engine,
        out: &mut Vec<u8>,
    ) -> Result<(), NoMemory>
        ensures { out.new.items ≡ (if is_ok result
            then out.old.items ++ block_text engine.now.factors engine.now.sheet
            else out.old.items) }
    {
        self.form(alloc, engine)?;
        push(out, self.text.as_slice())
    }

    /// The block is that of the engine's book. Where memory is refused, no line is kept.
    fn form(&mut self, alloc: Global, engine: &Engine) -> Result<(), NoMemory>
        ensures { OnOk result (self.new ≡ block_text engine.now.factors engine.now.sheet) }
    {
        match renew(alloc, engine, &mut self.lines, &mut self.text) {
            Ok(()) => Ok(()),
            Err(NoMemory) => {
                self.lines.clear();
                self.text.clear();
                Err(NoMemory)
            }
        }
    }
}

/// The block becomes that of the engine's book: each line whose figure is another one is formed anew, in its place in the text.
fn renew(
    alloc: Global,
    engine: &Engine,
    lines: &mut Vec<Line>,
    text: &mut Vec<u8>,
) -> Result<(), NoMemory>
    requires { IsBlock lines.old.items text.old.items }
    ensures block { OnOk result (IsBlock lines.new.items text.new.items) }
    ensures today { OnOk result (text.new.items ≡ block_text engine.now.factors engine.now.sheet) }
{
    make_room(lines, text)?;
    let mut anew = Vec::with_capacity(alloc, LINE)?;
    // So many bytes stand behind the lines so far.
    let mut left = text.len();
    for k in 0..CELL_COUNT {
        let entry = entry_of(k);
        let former = line_at(lines.as_slice(), k, entry);
        left -= former.bytes;
        if !stays(engine, entry, &former) {
            let line = line_of(alloc, engine, entry, former.family, &mut anew)?;
            replace(alloc, text, former.bytes, left, anew.as_slice())?;
            put(lines, k as usize, line)?;
        }
    }
    Ok(())
}

/// Room for all lines at once.
fn make_room(lines: &mut Vec<Line>, text: &mut Vec<u8>) -> Result<(), NoMemory>
    ensures lines { lines.new.items ≡ lines.old.items }
    ensures text { text.new.items ≡ text.old.items }
{
    lines.reserve_exact((CELL_COUNT as usize).saturating_sub(lines.len()))?;
    text.reserve_exact(BLOCK.saturating_sub(text.len()))
}

/// The line of the cell of this number, which may not be formed yet.
fn line_at(lines: &[Line], k: u32, entry: &Entry) -> Line
    ensures there { (line : TheLine) → slice_get lines.now k ≡ Some line → result ≡ line }
    ensures absent { slice_get lines.now k ≡ None
        → (result.mark ≡ None) × (whole_family entry.now.shown ≡ result.family) × (result.bytes ≡ 0) }
{
    match lines.get(k as usize) {
        Some(line) => *line,
        None => blank(entry),
    }
}

/// The line of a cell as long as it is not formed.
fn blank(entry: &Entry) -> Line
    ensures { (result.mark ≡ None) × (whole_family entry.now.shown ≡ result.family) × (result.bytes ≡ 0) }
{
    Line {
        mark: None,
        family: family(&Node::Whole(entry.shown)),
        bytes: 0,
    }
}

/// The line was formed, and the figure that it tells is still the cell's. That of a wide figure is formed each time.
#[tactic(auto, unfolding(crate::specs::Block::cell_line))]
fn stays(engine: &Engine, entry: &Entry, line: &Line) -> bool
    requires live { is_live engine.now.sheet (nodes.Whole entry.now.shown) ≡ true }
    requires family { whole_family entry.now.shown ≡ line.now.family }
    ensures { result ≡ true → (mark : TheMark) × (line.now.mark ≡ Some mark)
        × (figure_line (seen entry.now) (figure_of mark) ≡ cell_line engine.now.factors engine.now.sheet (seen entry.now)) }
{
    match line.mark {
        Some(mark) => engine.is_told(line.family, &mark),
        None => false,
    }
}

/// The line of a cell, and its text.
#[tactic(auto, unfolding(crate::specs::Block::cell_line))]
fn line_of(
    alloc: Global,
    engine: &Engine,
    entry: &Entry,
    family: u32,
    text: &mut Vec<u8>,
) -> Result<Line, NoMemory>
    requires live { is_live engine.now.sheet (nodes.Whole entry.now.shown) ≡ true }
    requires family { whole_family entry.now.shown ≡ family }
    ensures line { IfOk result (λ line. IsLineOf (seen entry.now) line (cell_line engine.now.factors engine.now.sheet (seen entry.now))) }
    ensures text { OnOk result (text.new.items ≡ cell_line engine.now.factors engine.now.sheet (seen entry.now)) }
{
    let (span, close) = engine.told_whole(family);
    text.clear();
    push_bounds(alloc, text, entry.name, &bounds_of(span, close))?;
    Ok(Line {
        mark: Mark::new(&Figure { span, close }),
        family,
        bytes: text.len(),
    })
}

/// A line stands in the text in place of so many bytes, behind which so many are left.
fn replace(
    alloc: Global,
    text: &mut Vec<u8>,
    count: usize,
    left: usize,
    line: &[u8],
) -> Result<(), NoMemory>
    requires { count + left ≤ length text.old.items }
    ensures { OnOk result (text.new.items
        ≡ take (length text.old.items - (count + left)) text.old.items ++ line.now ++ drop (length text.old.items - left) text.old.items) }
{
    let end = text.len() - left;
    let start = end - count;
    if line.len() == count {
        text[start..end].copy_from_slice(line);
        return Ok(());
    }
    if left == 0 {
        // So are all lines of the first block.
        text.truncate(start);
        return push(text, line);
    }
    let rest = Vec::from_slice(alloc, &text[end..])?;
    text.truncate(start);
    push(text, line)?;
    push(text, rest.as_slice())
}

/// The line stands at this place, in that of another or behind the last.
fn put(lines: &mut Vec<Line>, place: usize, line: Line) -> Result<(), NoMemory>
    requires { place ≤ length lines.old.items }
    ensures { OnOk result (lines.new.items ≡ take place lines.old.items ++ line ∷ drop (place + 1) lines.old.items) }
{
    if place == lines.len() {
        lines.push(line)?;
    } else {
        lines[place] = line;
    }
    Ok(())
}

fn push(out: &mut Vec<u8>, text: &[u8]) -> Result<(), NoMemory>
    ensures ok { OnOk result (out.new.items ≡ out.old.items ++ text.now) }
    ensures err { OnErr result (out.new.items ≡ out.old.items) }
{
    out.extend_from_slice(text)
}
