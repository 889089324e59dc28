//! Commands as fields of a row, read and written.
ghost use Rattle.std.specs.Prelude.{◌≡◌, ◌≢◌, ◌<◌, ◌≤◌, ◌^◌, ◌↔◌, ℕ, true, false, [], ◌∷◌, ◌++◌, All, Contains, length, map, decimal, codes, IsSome, IfSome, MatchOption, MatchResult, Option, Some, None, IfOk, IfErr, OnOk, string_bytes};
ghost use Rattle.std.specs.Option.{option_map_or};
ghost use Rattle.arena.specs.Opening.{is_map};
ghost use Rattle.arena.specs.declared.word.Side.{Side};
ghost use Rattle.script.specs.declared.cells.CellList.{CellList};
ghost use Rattle.script.specs.Calls.{IsNoCommand};
ghost use Rattle.script.specs.Cells.{cells_of, maybe_cells_of};
ghost use Rattle.texts.specs.Sheets.{ArePlain, IsPlain};
ghost use Rattle.script.specs.Commands.{command_row, request_arguments, request_name, three_fields, asks_map, change_text, numbers_text, side_text, texts, AreCells, AsksForFewPairs, IsCell, IsCommand, IsCommandOf, IsOfMode};

use crate::cells::{Cell, CellList};
use crate::command::{CellUpdate, Command};
use crate::fault::ScriptCause;
use arena::{Mode, Side};
use itoa::Buffer;
use ordered_map::Request;
use std::alloc::{AllocError, Global};
use texts::{number_of, small_number_of};

/// The command that a row of a script says by this name and these arguments. The cause is `Command`
/// where no command of the mode has the name, and else `Argument`: none of the name has these
/// arguments.
#[tactic(auto, using(crate::proofs::Few::command_asks))]
pub fn command_of(mode: Mode, name: &str, arguments: [&str; 3]) -> Result<Command, ScriptCause>
    ensures command { IfOk result (λ command. IsOfMode mode command × IsCommand command ×
        (name.now ∷ texts arguments.entry ≡ command_row command)) }
    ensures few { IfOk result AsksForFewPairs }
    ensures cause { IfErr result (IsNoCommand (is_map mode) name.now (texts arguments.entry)) }
{
    match mode {
        Mode::Tree | Mode::Trie => map_command_of(name, arguments),
        Mode::Records => cells_command_of(name, arguments),
    }
}

/// The same of the commands on cells.
fn cells_command_of(name: &str, arguments: [&str; 3]) -> Result<Command, ScriptCause>
    ensures command { IfOk result (λ command. (asks_map command ≡ false) ×
        IsCommand command × (name.now ∷ texts arguments.entry ≡ command_row command)) }
    ensures cause { IfErr result (IsNoCommand false name.now (texts arguments.entry)) }
{
    match name {
        "llx" => or_argument(llx_of(arguments)),
        "scx" => or_argument(scx_of(arguments)),
        "vlx" => or_argument(vlx_of(arguments)),
        "set" => or_argument(set_of(arguments)),
        _ => Err(ScriptCause::Command),
    }
}

/// And of the calls of the map.
fn map_command_of(name: &str, arguments: [&str; 3]) -> Result<Command, ScriptCause>
    ensures command { IfOk result (λ command. (asks_map command ≡ true) × IsCommand command ×
        (name.now ∷ texts arguments.entry ≡ command_row command)) }
    ensures cause { IfErr result (IsNoCommand true name.now (texts arguments.entry)) }
{
    match name {
        "insert" => or_argument(insert_of(arguments)),
        "delete" => or_argument(delete_of(arguments)),
        "pop_first" => or_argument(pop_first_of(arguments)),
        "pop_last" => or_argument(pop_last_of(arguments)),
        "replace_if" => or_argument(replace_if_of(arguments)),
        "insert_new" => or_argument(insert_new_of(arguments)),
        "delete_if" => or_argument(delete_if_of(arguments)),
        "get" => or_argument(get_of(arguments)),
        "successor" => or_argument(successor_of(arguments)),
        "predecessor" => or_argument(predecessor_of(arguments)),
        "range" => or_argument(range_of(arguments)),
        _ => Err(ScriptCause::Command),
    }
}

/// The command that a name's arguments say, or that they say none.
fn or_argument(command: Option<Command>) -> Result<Command, ScriptCause>
    ensures { MatchResult result (λ found. command ≡ Some found) (λ cause. (command ≡ None) ×
        (cause ≡ ScriptCause.Argument)) }
{
    match command {
        Some(command) => Ok(command),
        None => Err(ScriptCause::Argument),
    }
}

fn llx_of(arguments: [&str; 3]) -> Option<Command>
    ensures { IsCommandOf (codes "llx" ∷ texts arguments.entry) result }
{
    let [cell, "", ""] = arguments else {
        return None;
    };
    Some(Command::Llx {
        cell: cell_of(cell)?,
    })
}

fn scx_of(arguments: [&str; 3]) -> Option<Command>
    ensures { IsCommandOf (codes "scx" ∷ texts arguments.entry) result }
{
    let [cells, finalize, change] = arguments;
    let (field, value) = change_of(change)?;
    let update = CellUpdate::new(cells_of(cells)?, finalize_of(finalize)?, field, value)?;
    Some(Command::Scx(update))
}

fn vlx_of(arguments: [&str; 3]) -> Option<Command>
    ensures { IsCommandOf (codes "vlx" ∷ texts arguments.entry) result }
{
    let [cells, "", ""] = arguments else {
        return None;
    };
    Some(Command::Vlx {
        cells: cells_of(cells)?,
    })
}

fn set_of(arguments: [&str; 3]) -> Option<Command>
    ensures { IsCommandOf (codes "set" ∷ texts arguments.entry) result }
{
    let [cell, side, value] = arguments;
    Some(Command::Set {
        field: (cell_of(cell)?, side_of(side)?),
        value: number_of(value)?,
    })
}

fn insert_of(arguments: [&str; 3]) -> Option<Command>
    ensures { IsCommandOf (codes "insert" ∷ texts arguments.entry) result }
{
    let [key, value, ""] = arguments else {
        return None;
    };
    Some(Command::Map(Request::Insert {
        key: number_of(key)?,
        value: number_of(value)?,
    }))
}

fn delete_of(arguments: [&str; 3]) -> Option<Command>
    ensures { IsCommandOf (codes "delete" ∷ texts arguments.entry) result }
{
    let [key, "", ""] = arguments else {
        return None;
    };
    Some(Command::Map(Request::Delete {
        key: number_of(key)?,
    }))
}

fn pop_first_of(arguments: [&str; 3]) -> Option<Command>
    ensures { IsCommandOf (codes "pop_first" ∷ texts arguments.entry) result }
{
    match arguments {
        ["", "", ""] => Some(Command::Map(Request::PopFirst)),
        _ => None,
    }
}

fn pop_last_of(arguments: [&str; 3]) -> Option<Command>
    ensures { IsCommandOf (codes "pop_last" ∷ texts arguments.entry) result }
{
    match arguments {
        ["", "", ""] => Some(Command::Map(Request::PopLast)),
        _ => None,
    }
}

fn replace_if_of(arguments: [&str; 3]) -> Option<Command>
    ensures { IsCommandOf (codes "replace_if" ∷ texts arguments.entry) result }
{
    let [key, expected, value] = arguments;
    Some(Command::Map(Request::ReplaceIf {
        key: number_of(key)?,
        expected: number_of(expected)?,
        value: number_of(value)?,
    }))
}

fn insert_new_of(arguments: [&str; 3]) -> Option<Command>
    ensures { IsCommandOf (codes "insert_new" ∷ texts arguments.entry) result }
{
    let [key, value, ""] = arguments else {
        return None;
    };
    Some(Command::Map(Request::InsertNew {
        key: number_of(key)?,
        value: number_of(value)?,
    }))
}

fn delete_if_of(arguments: [&str; 3]) -> Option<Command>
    ensures { IsCommandOf (codes "delete_if" ∷ texts arguments.entry) result }
{
    let [key, expected, ""] = arguments else {
        return None;
    };
    Some(Command::Map(Request::DeleteIf {
        key: number_of(key)?,
        expected: number_of(expected)?,
    }))
}

fn get_of(arguments: [&str; 3]) -> Option<Command>
    ensures { IsCommandOf (codes "get" ∷ texts arguments.entry) result }
{
    let [key, "", ""] = arguments else {
        return None;
    };
    Some(Command::Map(Request::Get {
        key: number_of(key)?,
    }))
}

fn successor_of(arguments: [&str; 3]) -> Option<Command>
    ensures { IsCommandOf (codes "successor" ∷ texts arguments.entry) result }
{
    let [key, "", ""] = arguments else {
        return None;
    };
    Some(Command::Map(Request::Successor {
        key: number_of(key)?,
    }))
}

fn predecessor_of(arguments: [&str; 3]) -> Option<Command>
    ensures { IsCommandOf (codes "predecessor" ∷ texts arguments.entry) result }
{
    let [key, "", ""] = arguments else {
        return None;
    };
    Some(Command::Map(Request::Predecessor {
        key: number_of(key)?,
    }))
}

fn range_of(arguments: [&str; 3]) -> Option<Command>
    ensures { IsCommandOf (codes "range" ∷ texts arguments.entry) result }
{
    let [low, high, most] = arguments;
    Some(Command::Map(Request::Range {
        low: number_of(low)?,
        high: number_of(high)?,
        most: most_of(most)?,
    }))
}

/// How many pairs a range may take: 64 at most.
#[tactic(auto, using(texts::proofs::Lemmas::same_number))]
fn most_of(text: &str) -> Option<u32>
    ensures { MatchOption result ((most : ℕ) → most ≤ 64 →
        text.now ≢ decimal most) (λ most. (most ≤ 64) × (text.now ≡ decimal most)) }
{
    let most = small_number_of(text)?;
    if most <= 64 { Some(most) } else { None }
}

#[tactic(auto, using(texts::proofs::Lemmas::same_number))]
fn cell_of(text: &str) -> Option<Cell>
    ensures { MatchOption result ((node : ℕ) → IsCell node →
        text.now ≢ decimal node) (λ cell. IsCell cell × (text.now ≡ decimal cell)) }
{
    Cell::new(number_of(text)?)
}

/// One to four cells that differ, with one space between two.
fn cells_of(text: &str) -> Option<CellList>
    ensures { MatchOption result ((cells : CellList) → AreCells (cells_of cells) → text.now ≢ numbers_text (cells_of cells))
        (λ cells. AreCells (cells_of cells) × (text.now ≡ numbers_text (cells_of cells))) }
{
    let mut cells = None;
    for part in text.split(' ') {
        cells = Some(one_more(cells, cell_of(part)?)?);
    }
    cells
}

/// These cells, if any, and one that is none of them; four are the most.
fn one_more(cells: Option<CellList>, cell: Cell) -> Option<CellList>
    ensures fits { IsSome result ↔ ((length (maybe_cells_of cells) < 4) ×
        ¬ (Contains (maybe_cells_of cells) cell)) }
    ensures cells { IfSome result (λ more. cells_of more ≡ maybe_cells_of cells ++ cell ∷ []) }
{
    match cells {
        Some(cells) => cells.with(cell),
        None => Some(CellList::one(cell)),
    }
}

/// The cells of an SCX that are finalized, if any.
fn finalize_of(text: &str) -> Option<Option<CellList>>
    ensures { MatchOption result ((cells : Option CellList) → All IsCell (maybe_cells_of cells) →
        text.now ≢ numbers_text (maybe_cells_of cells))
        (λ cells. All IsCell (maybe_cells_of cells) × (text.now ≡ numbers_text (maybe_cells_of cells))) }
{
    match text {
        "" => Some(None),
        some => Some(Some(cells_of(some)?)),
    }
}

/// A field and the value that goes into it: cell, side and value, with one space between two.
fn change_of(text: &str) -> Option<((Cell, Side), u64)>
    ensures { MatchOption result ((field : ℕ × Side) (value : ℕ) → IsCell field.0 → value < 2 ^ 64 →
        text.now ≢ change_text field value)
        (λ change. IsCell change.0.0 × (change.1 < 2 ^ 64) × (text.now ≡ change_text change.0 change.1)) }
{
    let (cell, rest) = text.split_once(' ')?;
    let (side, value) = rest.split_once(' ')?;
    Some(((cell_of(cell)?, side_of(side)?), number_of(value)?))
}

fn side_of(text: &str) -> Option<Side>
    ensures { MatchOption result ((side : Side) →
        text.now ≢ side_text side) (λ side. text.now ≡ side_text side) }
{
    match text {
        "left" => Some(Side::Left),
        "right" => Some(Side::Right),
        _ => None,
    }
}

/// The name of a call of the map, and its arguments.
fn request_text(request: &Request<u64, u128>) -> (&'static str, [Option<u128>; 3])
    ensures name { result.0.now ≡ request_name request.now }
    ensures plain { IsPlain result.0.now }
    ensures arguments { map (λ n. option_map_or decimal n []) result.1 ≡ three_fields (request_arguments request.now) }
{
    match *request {
        Request::Insert { key, value } => ("insert", [Some(key.into()), Some(value), None]),
        Request::Delete { key } => ("delete", [Some(key.into()), None, None]),
        Request::PopFirst => ("pop_first", [None, None, None]),
        Request::PopLast => ("pop_last", [None, None, None]),
        Request::ReplaceIf {
            key,
            expected,
            value,
        } => (
            "replace_if",
            [Some(key.into()), Some(expected), Some(value)],
        ),
        Request::InsertNew { key, value } => ("insert_new", [Some(key.into()), Some(value), None]),
        Request::DeleteIf { key, expected } => {
            ("delete_if", [Some(key.into()), Some(expected), None])
        }
        Request::Get { key } => ("get", [Some(key.into()), None, None]),
        Request::Successor { key } => ("successor", [Some(key.into()), None, None]),
        Request::Predecessor { key } => ("predecessor", [Some(key.into()), None, None]),
        Request::Range { low, high, most } => {
            (
                "range",
                [Some(low.into()), Some(high.into()), Some(most.into())],
            )
        }
    }
}

/// The name of a command, and its arguments as a script has them.
#[derive(Drop)]
pub struct CommandText {
    pub name: &'static str,
    pub a: String,
    pub b: String,
    pub c: String,
}

impl CommandText {
    /// The text of a command. The only error is want of memory.
    pub fn of(alloc: Global, command: &Command) -> Result<CommandText, AllocError>
        ensures row { IfOk result (λ t. t.name.now ∷ string_bytes t.a ∷ string_bytes t.b ∷ string_bytes t.c ∷ [] ≡ command_row command.now) }
        ensures plain { OnOk result (ArePlain (command_row command.now)) }
    {
        match command {
            Command::Llx { cell } => Ok(CommandText {
                name: "llx",
                a: argument_text(alloc, Some(cell.node().0.into()))?,
                b: String::new(alloc),
                c: String::new(alloc),
            }),
            Command::Scx(update) => Ok(CommandText {
                name: "scx",
                a: cells_text(alloc, update.cells())?,
                b: cells_text(alloc, update.finalize())?,
                c: change_text(alloc, update.field(), update.value())?,
            }),
            Command::Vlx { cells } => Ok(CommandText {
                name: "vlx",
                a: cells_text(alloc, cells.as_slice())?,
                b: String::new(alloc),
                c: String::new(alloc),
            }),
            Command::Set { field, value } => Ok(CommandText {
                name: "set",
                a: argument_text(alloc, Some(field.0.node().0.into()))?,
                b: String::from_str(alloc, side_name(field.1))?,
                c: argument_text(alloc, Some((*value).into()))?,
            }),
            Command::Map(request) => {
                let (name, arguments) = request_text(request);
                CommandText::of_numbers(alloc, name, arguments)
            }
        }
    }

    /// The text of a command whose arguments are these numbers.
    fn of_numbers(
        alloc: Global,
        name: &'static str,
        numbers: [Option<u128>; 3],
    ) -> Result<CommandText, AllocError>
        requires { IsPlain name.now }
        ensures row { IfOk result (λ t. t.name.now ∷ string_bytes t.a ∷ string_bytes t.b ∷ string_bytes t.c ∷ []
            ≡ name.now ∷ map (λ n. option_map_or decimal n []) numbers) }
        ensures plain { OnOk result (ArePlain (name.now ∷ map (λ n. option_map_or decimal n []) numbers)) }
    {
        let [a, b, c] = numbers;
        Ok(CommandText {
            name,
            a: argument_text(alloc, a)?,
            b: argument_text(alloc, b)?,
            c: argument_text(alloc, c)?,
        })
    }
}

/// The text of an argument: of none it is empty.
fn argument_text(alloc: Global, number: Option<u128>) -> Result<String, AllocError>
    ensures text { IfOk result (λ text. string_bytes text ≡ option_map_or decimal number []) }
    ensures plain { IsPlain (option_map_or decimal number []) }
{
    match number {
        Some(number) => format!(in alloc; "{number}"),
        None => Ok(String::new(alloc)),
    }
}

/// The numbers of cells, parted by one space.
fn cells_text(alloc: Global, cells: &[Cell]) -> Result<String, AllocError>
    ensures text { IfOk result (λ text. string_bytes text ≡ numbers_text cells.now) }
    ensures plain { OnOk result (IsPlain (numbers_text cells.now)) }
{
    let mut text = String::new(alloc);
    for (place, cell) in cells.iter().enumerate() {
        if place > 0 {
            text.push(' ')?;
        }
        text.push_str(Buffer::new().format(cell.node().0))?;
    }
    Ok(text)
}

/// A field and the value that goes into it.
fn change_text(alloc: Global, field: (Cell, Side), value: u64) -> Result<String, AllocError>
    ensures text { IfOk result (λ text. string_bytes text ≡ change_text field value) }
    ensures plain { IsPlain (change_text field value) }
{
    format!(in alloc; "{} {} {value}", field.0.node().0, side_name(field.1))
}

fn side_name(side: Side) -> &'static str
    ensures name { result.now ≡ side_text side }
    ensures plain { IsPlain (side_text side) }
{
    match side {
        Side::Left => "left",
        Side::Right => "right",
    }
}
