//! The machine's answer to each command, and what the command does.

ghost use Rattle.std.specs.Prelude.{◌≡◌, None, Some, MatchOption, IfOk, OnOk, OnErr};
ghost use Rattle.fbc_kinds.specs.Machine.{MayCome, IsReply, reply_in, changed, machine_step, open_transaction, standing_versions, after_change, after_end};
ghost use Rattle.fbc_machine.specs.Shown.{shown, IsDone, IsRefused};

use crate::machine::Machine;
use fbc_kinds::{Command, Reply, Rows, Standing, Value};
use std::alloc::AllocError;

/// Gives the machine a command: answers its reply, and leaves the machine after it. Without memory
/// nothing changes.
pub fn step(machine: &mut Machine, command: &Command) -> Result<Reply, AllocError>
    requires { MayCome (shown machine.old) command.now }
    ensures reply { IfOk result (IsReply (shown machine.old) command.now) }
    ensures after { OnOk result (shown machine.new ≡ machine_step (shown machine.old) command.now) }
    ensures err { OnErr result (shown machine.new ≡ shown machine.old) }
{
    match *command {
        Command::Begin { who, number } => begin(machine, who, number),
        Command::Insert {
            who,
            relation,
            row,
            value,
        } => insert(machine, who, relation, row, value),
        Command::Update {
            who,
            relation,
            row,
            value,
        } => change(machine, who, relation, row, Some(value)),
        Command::Delete { who, relation, row } => change(machine, who, relation, row, None),
        Command::Read { who, relation, row } => Ok(read(machine, who, relation, row)),
        Command::Scan { who, relation } => scan(machine, who, relation),
        Command::Commit { who } => Ok(end(machine, who, Standing::Committed)),
        Command::Rollback { who } | Command::Kill { who } => {
            Ok(end(machine, who, Standing::RolledBack))
        }
    }
}

/// A second begin is refused.
fn begin(machine: &mut Machine, who: u32, number: u32) -> Result<Reply, AllocError>
    ensures reply { IfOk result (IsReply (shown machine.old) (Command.Begin who number)) }
    ensures after { OnOk result (shown machine.new ≡ machine_step (shown machine.old) (Command.Begin who number)) }
    ensures err { OnErr result (shown machine.new ≡ shown machine.old) }
{
    match machine.open_place(who) {
        Some(_) => Ok(Reply::AlreadyOpen),
        None => {
            machine.begin(who, number)?;
            Ok(Reply::Number { number })
        }
    }
}

/// A row is put in front of what stands there.
fn insert(
    machine: &mut Machine,
    who: u32,
    relation: u8,
    row: u32,
    value: Value,
) -> Result<Reply, AllocError>
    ensures reply { IfOk result (IsReply (shown machine.old) (Command.Insert who relation row value)) }
    ensures after { OnOk result (shown machine.new ≡ machine_step (shown machine.old) (Command.Insert who relation row value)) }
    ensures err { OnErr result (shown machine.new ≡ shown machine.old) }
{
    match machine.open_place(who) {
        Some(place) => {
            machine.put(place, relation, row, Some(value))?;
            Ok(Reply::Row { row })
        }
        None => Ok(Reply::NoTransaction),
    }
}

/// Why a transaction of this snapshot may not change the row, if there is a reason.
fn refusal(machine: &Machine, relation: u8, row: u32, snapshot: &[u32]) -> Option<Reply>
    ensures { MatchOption result (IsDone snapshot.now (standing_versions (shown machine.now) relation row))
        (IsRefused snapshot.now (standing_versions (shown machine.now) relation row)) }
{
    let Some(newest) = machine.newest(relation, row) else {
        return Some(Reply::NoRow);
    };
    if machine.seen(relation, row, snapshot).is_none() {
        return Some(Reply::NoRow);
    }
    if snapshot.contains(&newest.number) {
        None
    } else {
        Some(Reply::Conflict { n: newest.number })
    }
}

/// A row is changed where the transaction sees it and where its snapshot holds the newest version.
fn change(
    machine: &mut Machine,
    who: u32,
    relation: u8,
    row: u32,
    value: Option<Value>,
) -> Result<Reply, AllocError>
    ensures reply { IfOk result (λ reply. reply ≡ reply_in (open_transaction (shown machine.old) who) (changed (shown machine.old) relation row)) }
    ensures after { OnOk result (shown machine.new ≡ after_change (shown machine.old) who relation row value (open_transaction (shown machine.old) who)) }
    ensures err { OnErr result (shown machine.new ≡ shown machine.old) }
{
    let Some(place) = machine.open_place(who) else {
        return Ok(Reply::NoTransaction);
    };
    let snapshot = machine.transaction(place).snapshot.items();
    match refusal(machine, relation, row, snapshot) {
        Some(reply) => Ok(reply),
        None => {
            machine.put(place, relation, row, value)?;
            Ok(Reply::Ok)
        }
    }
}

/// The value that the transaction sees.
fn read(machine: &Machine, who: u32, relation: u8, row: u32) -> Reply
    ensures { IsReply (shown machine.now) (Command.Read who relation row) result }
{
    let Some(place) = machine.open_place(who) else {
        return Reply::NoTransaction;
    };
    match machine.seen(relation, row, machine.transaction(place).snapshot.items()) {
        Some(value) => Reply::Value { value },
        None => Reply::None,
    }
}

/// The rows that the transaction sees.
fn scan(machine: &Machine, who: u32, relation: u8) -> Result<Reply, AllocError>
    ensures { IfOk result (IsReply (shown machine.now) (Command.Scan who relation)) }
{
    let Some(place) = machine.open_place(who) else {
        return Ok(Reply::NoTransaction);
    };
    let rows = machine.rows_seen(relation, machine.transaction(place).snapshot.items())?;
    Ok(Reply::Rows {
        rows: Rows::new(machine.allocator(), rows)?,
    })
}

/// The open transaction ends.
fn end(machine: &mut Machine, who: u32, standing: Standing) -> Reply
    ensures reply { result ≡ reply_in (open_transaction (shown machine.old) who) (λ _. Reply.Ok) }
    ensures after { shown machine.new ≡ after_end (shown machine.old) who standing }
{
    let open = machine.open_place(who);
    machine.end(who, standing);
    match open {
        Some(_) => Reply::Ok,
        None => Reply::NoTransaction,
    }
}
