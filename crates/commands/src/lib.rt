// Runs the commands of a data block on a board's parameters.
#![tactic(auto)]

pub mod draft;

ghost use Rattle.std.specs.Prelude.{◌≡◌};
ghost use Rattle.block.specs.Command.{command_number, the_command};
ghost use Rattle.store.specs.Operations.{answer};
ghost use Rattle.schedule.specs.Operations.{answered};
ghost use Rattle.model.specs.Commands.{names_schedule, after_row, after_entry, after_command, row_report, entry_report};
ghost use Rattle.commands.specs.Draft.{Adds, run_block, reported_in, selected};

use block::request::NextCommand;
use block::{Command, Held};
use draft::Draft;
use encoding::Unwritten;
use model::Parameters;
use schedule::Schedule;
use store::Store;

// Which parameters are reported: in a discovery only the ID and the unit type.
#[derive(Clone, Copy)]
pub enum Scope {
    All,
    Identity,
}

#[derive(Clone, Copy)]
pub struct RunResult {
    pub parameters: Parameters,
    pub draft: Draft,
}

// The weekly schedule, a parameter of the Micra; every other number is a row's or unknown.
const SCHEDULE: u16 = 0x0077;

// Whether a number is the schedule's on a unit type.
fn is_schedule(unit: u8, number: u16) -> bool
    ensures { result ≡ names_schedule unit number }
{
    unit == rows::MICRA && number == SCHEDULE
}

// The number of a command's parameter.
fn number_of(command: Command) -> u16
    ensures { result ≡ command_number (the_command command.entry) }
{
    u16::from(command.page) * 256 + u16::from(command.low)
}

// What a command makes of the rows.
fn change_row(store: Store, command: Command) -> Store
    ensures { result ≡ after_row store (the_command command.entry) }
{
    match command.function {
        2 | 3 => store::write(store, number_of(command), command.value),
        4 => store::raise(store, number_of(command)),
        5 => store::lower(store, number_of(command)),
        _ => store,
    }
}

// What a command makes of the schedule.
fn change_entry(schedule: Schedule, command: Command) -> Schedule
    ensures { result ≡ after_entry schedule (the_command command.entry) }
{
    match command.function {
        2 | 3 => schedule::write(schedule, command.value),
        _ => schedule,
    }
}

// What a command makes of the parameters.
#[tactic(auto, unfolding(model::specs::Commands::after_command))]
fn change(parameters: Parameters, command: Command) -> Parameters
    ensures { result ≡ after_command parameters (the_command command.entry) }
{
    let store = parameters.store;
    let schedule = parameters.schedule;
    if is_schedule(store.unit, number_of(command)) {
        return Parameters {
            store,
            schedule: change_entry(schedule, command),
        };
    }
    Parameters {
        store: change_row(store, command),
        schedule,
    }
}

fn is_selected(scope: Scope, number: u16) -> bool
    ensures { result ≡ selected scope number }
{
    match scope {
        Scope::All => true,
        Scope::Identity => number == rows::ID || number == rows::UNIT_TYPE,
    }
}

// Adds what a command of a row reports.
fn report_row(store: Store, command: Command, draft: &mut Draft) -> Result<(), Unwritten>
    ensures { Adds draft.old (row_report (answer store.unit command.entry.function (command_number (the_command command.entry))) store (the_command command.entry)) result draft.new }
{
    let number = number_of(command);
    match store::answered_with(store.unit, command.function, number) {
        store::Answer::Silence => Ok(()),
        store::Answer::Unknown => draft.add_unknown(command.page, command.low),
        store::Answer::Value => {
            draft.add_value(Held {
                page: command.page,
                low: command.low,
                value: store::held(&store.bytes, store.unit, number),
            })
        }
    }
}

// Adds what a command of the schedule reports.
fn report_entry(schedule: Schedule, command: Command, draft: &mut Draft) -> Result<(), Unwritten>
    ensures { Adds draft.old (entry_report (answered command.entry.function command.entry.value.now) schedule (the_command command.entry)) result draft.new }
{
    match schedule::answered_with(command.function, command.value) {
        schedule::Answer::Silence => Ok(()),
        schedule::Answer::Unknown => draft.add_unknown(command.page, command.low),
        schedule::Answer::Entry { day, period } => {
            let entry = schedule::report(schedule, day, period);
            draft.add_value(Held {
                page: command.page,
                low: command.low,
                value: &entry,
            })
        }
    }
}

// Adds what a command reports of the parameters just after it.
#[tactic(auto, unfolding(model::specs::Commands::reported))]
fn report(
    scope: Scope,
    parameters: Parameters,
    command: Command,
    draft: &mut Draft,
) -> Result<(), Unwritten>
    ensures { Adds draft.old (reported_in scope parameters (the_command command.entry)) result draft.new }
{
    let number = number_of(command);
    if !is_selected(scope, number) {
        return Ok(());
    }
    if is_schedule(parameters.store.unit, number) {
        return report_entry(parameters.schedule, command, draft);
    }
    report_row(parameters.store, command, draft)
}

// The commands of a block in order. Where the block is malformed, or the reports have no room, there is no result.
pub fn run(scope: Scope, parameters: Parameters, function: u8, bytes: &[u8]) -> Option<RunResult>
    ensures { result ≡ run_block scope parameters function bytes.now }
{
    let mut rest = bytes;
    let mut page: u8 = 0;
    let mut in_force = function;
    let mut held = parameters;
    let mut draft = Draft::blank();
    loop {
        match block::request::next_command(rest, page, in_force) {
            NextCommand::End => {
                return Some(RunResult {
                    parameters: held,
                    draft,
                });
            }
            NextCommand::Malformed => return None,
            NextCommand::Command {
                function: next_function,
                page: next_page,
                low,
                value: from,
                rest: after,
            } => {
                let command = Command {
                    function: next_function,
                    page: next_page,
                    low,
                    value: block::part(rest, from, after),
                };
                held = change(held, command);
                report(scope, held, command, &mut draft).ok()?;
                rest = block::part(rest, after, 0);
                page = next_page;
                in_force = next_function;
            }
        }
    }
}
