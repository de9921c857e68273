//! The top call: it does all that the program does.
ghost use Rattle.std.specs.Prelude.{◌≡◌, ◌↔◌, ◌≤◌, true, false, IsTrue, List, map, string_bytes, vec_len};
ghost use Rattle.tb_words.specs.Commands.{AreCommand, AreWordsOf, IsInRange};
ghost use Rattle.tb_words.specs.declared.command.Command as declared;
ghost use Rattle.tb_host.specs.Commands.{HasGates, Stays, answers_faults, ends_at_fault, uses_of};
ghost use Rattle.tb_commands.specs.Completeness.{Completes};
ghost use Rattle.tb_commands.specs.Endings.{IsUnopened, Tells, status_of};
ghost use Rattle.tb_host.specs.HostRun.{EndsAs, EndsWith, HasCause, HidesNoFault, Reports};
ghost use Rattle.tb_commands.specs.ReportRun as spec;

use crate::serve_command::serve;
use std::alloc::Global;
use std::sync::Wait;
use std::thread::Threads;
use tb_commands::{
    Ending, Inquiry, Sender, award, check, follow_send, follow_take, import, migrate, register,
    report, run, trial,
};
use tb_disk::Disk;
use tb_gates::{Clock, Gate};
use tb_link::{Sink, Source};
use tb_message::{Key, Query};
use tb_register::Keeper;
use tb_units::Ident;
use tb_words::{Command, WordsFault, read_words};

/// How the program ended: its status, and the disk, handed back.
#[derive(Drop)]
pub struct Ended<D: Disk> {
    pub status: u8,
    pub disk: D,
}

/// Does the command that the words are, tells `err` how it ended, and answers the status and the disk.
///
/// 0: done. 2: the words are outside the command set. 3: the first line outside the grammar was reached, and is told.
/// 4: the input failed. 5: the output failed. 6: the disk failed while it was opened, or under `follow`. 7: the disk
/// holds no journal; what it begins with is told. 8: the journal is damaged; the place is told. 9: out of memory. 10: a
/// gate failed. 11: the journal isn't sealed; the byte in the seal's place is told. 12: the register has another row of
/// a published auction; its name is told. 13: the keeper of the register failed. 14: a parcel is a fork; its place is
/// told. 15: behind the gate of the journal stands what no append leaves; the place is told.
///
/// `run`, `import`, `report`, `check`, `follow`, `register` and `serve` work on the journal that `disk` holds.
/// `migrate` reads the journal of the first version that it holds, and writes into `spare`, which no other command
/// touches. `serve` alone touches the gates, of which there are as many as its words say; it and `import` read the
/// clock. `register` alone touches the keeper.
pub fn host_main<
    D: Disk + Send + Drop,
    G: Gate + Send + Drop,
    C: Clock + Send + Drop,
    I: Source,
    O: Sink,
    E: Sink,
    K: Keeper,
    R: Threads + Wait + Sync,
>(
    rt: &R,
    alloc: Global,
    words: &[String],
    input: &mut I,
    out: &mut O,
    err: &mut E,
    disk: D,
    spare: &mut D,
    gates: &mut Vec<G>,
    clock: C,
    keeper: &mut K,
) -> Ended<D>
    requires gates { (said : declared.Command) → AreWordsOf said (map string_bytes words.now)
        → HasGates said (vec_len gates.old) }
    // Where the words are a command, it ends as its record says (`AwardEnds`, `RunEnds`, `ServeEnds`, `ImportEnds`,
    // `ReportEnds`, `MigrateEnds`, `CheckEnds`, `FollowSendEnds`, `FollowTakeEnds`, `RegisterEnds`, `TrialEnds`), with
    // the status of that ending, which is told.
    ensures ends { (said : declared.Command) → AreWordsOf said (map string_bytes words.now)
        → EndsWith result.status (E.sink err.old) (E.sink err.new) (λ ended.
        EndsAs G.gate G.Conn.source G.Conn.sink said (C.clock clock) ended
        (record {
          input = I.source input.old;
          out = O.sink out.old;
          disk = D.disk disk;
          spare = D.disk spare.old;
          gates = gates.old.items;
          keeper = K.keeper keeper.old;
        })
        (record {
          input = I.source input.new;
          out = O.sink out.new;
          disk = D.disk result.disk;
          spare = D.disk spare.new;
          gates = gates.new.items;
          keeper = K.keeper keeper.new;
        })) }
    // It is answered: what its input and its disk tell decides how it ends, unless an object failed or memory ran out.
    ensures complete { (said : declared.Command) → AreWordsOf said (map string_bytes words.now)
        → EndsWith result.status (E.sink err.old) (E.sink err.new)
        (λ ended. Completes said (I.source input.old) (D.disk disk) ended) }
    // No object failed without a rise of its count.
    ensures causes { EndsWith result.status (E.sink err.old) (E.sink err.new) (λ ended. HasCause G.gate ended
        (record {
          input = I.source input.old;
          out = O.sink out.old;
          disk = D.disk disk;
          spare = D.disk spare.old;
          gates = gates.old.items;
          keeper = K.keeper keeper.old;
        })
        (record {
          input = I.source input.new;
          out = O.sink out.new;
          disk = D.disk result.disk;
          spare = D.disk spare.new;
          gates = gates.new.items;
          keeper = K.keeper keeper.new;
        })) }
    // Where memory ran out no count of faults rose, but the disk's under `run` and `import`, whose turns answer its
    // faults.
    ensures lacked { (said : declared.Command) → AreWordsOf said (map string_bytes words.now) → result.status ≡ 9
        → HidesNoFault (answers_faults said) K.counts_failures
        (record {
          input = I.source input.old;
          out = O.sink out.old;
          disk = D.disk disk;
          spare = D.disk spare.old;
          gates = gates.old.items;
          keeper = K.keeper keeper.old;
        })
        (record {
          input = I.source input.new;
          out = O.sink out.new;
          disk = D.disk result.disk;
          spare = D.disk spare.new;
          gates = gates.new.items;
          keeper = K.keeper keeper.new;
        }) }
    // It touches what the table says that it uses, and no other object.
    ensures uses { (said : declared.Command) → AreWordsOf said (map string_bytes words.now)
        → Stays (uses_of said).input input.old input.new
        × Stays (uses_of said).out out.old out.new
        × Stays (uses_of said).disk disk result.disk
        × Stays (uses_of said).spare spare.old spare.new
        × Stays (uses_of said).gates gates.old gates.new
        × Stays (uses_of said).keeper keeper.old keeper.new }
    // Where the disk wasn't opened neither input nor output was touched. A fault of the disk may end `follow` later
    // too: its records say what was read and written then.
    ensures unread { (said : declared.Command) → AreWordsOf said (map string_bytes words.now)
        → ends_at_fault said ≡ false
        → (ended : Ending) → IsUnopened ended → result.status ≡ status_of ended
        → (input.new ≡ input.old) × (O.sink out.new ≡ O.sink out.old) }
    // 2 is the status of other words, and of no command; then nothing is touched.
    ensures usage { (result.status ≡ 2) ↔ (¬ (AreCommand (map string_bytes words.now))) }
    ensures untouched { result.status ≡ 2 → Reports Ending.Usage (E.sink err.old) (E.sink err.new)
        × (input.new ≡ input.old) × (out.new ≡ out.old) × (result.disk ≡ disk) × (spare.new ≡ spare.old)
        × (gates.new ≡ gates.old) × (keeper.new ≡ keeper.old) }
{
    let (ending, disk) = any_command(
        rt, alloc, words, input, out, disk, spare, gates, clock, keeper,
    );
    tell(&ending, err);
    Ended {
        status: ending.status(),
        disk,
    }
}

// Does the command that the words are, if they are one.
fn any_command<
    D: Disk + Send + Drop,
    G: Gate + Send,
    C: Clock + Send + Drop,
    I: Source,
    O: Sink,
    K: Keeper,
    R: Threads + Wait + Sync,
>(
    rt: &R,
    alloc: Global,
    words: &[String],
    input: &mut I,
    out: &mut O,
    disk: D,
    spare: &mut D,
    gates: &mut Vec<G>,
    clock: C,
    keeper: &mut K,
) -> (Ending, D)
    requires gates { (said : declared.Command) → AreWordsOf said (map string_bytes words.now)
        → HasGates said (vec_len gates.old) }
    ensures ends { (said : declared.Command) → AreWordsOf said (map string_bytes words.now)
        → EndsAs G.gate G.Conn.source G.Conn.sink said (C.clock clock) result.0
        (record {
          input = I.source input.old;
          out = O.sink out.old;
          disk = D.disk disk;
          spare = D.disk spare.old;
          gates = gates.old.items;
          keeper = K.keeper keeper.old;
        })
        (record {
          input = I.source input.new;
          out = O.sink out.new;
          disk = D.disk result.1;
          spare = D.disk spare.new;
          gates = gates.new.items;
          keeper = K.keeper keeper.new;
        }) }
    ensures causes { HasCause G.gate result.0
        (record {
          input = I.source input.old;
          out = O.sink out.old;
          disk = D.disk disk;
          spare = D.disk spare.old;
          gates = gates.old.items;
          keeper = K.keeper keeper.old;
        })
        (record {
          input = I.source input.new;
          out = O.sink out.new;
          disk = D.disk result.1;
          spare = D.disk spare.new;
          gates = gates.new.items;
          keeper = K.keeper keeper.new;
        }) }
    ensures uses { (said : declared.Command) → AreWordsOf said (map string_bytes words.now)
        → Stays (uses_of said).input input.old input.new
        × Stays (uses_of said).out out.old out.new
        × Stays (uses_of said).disk disk result.1
        × Stays (uses_of said).spare spare.old spare.new
        × Stays (uses_of said).gates gates.old gates.new
        × Stays (uses_of said).keeper keeper.old keeper.new }
    ensures unread { (said : declared.Command) → AreWordsOf said (map string_bytes words.now)
        → ends_at_fault said ≡ false
        → IsUnopened result.0 → (input.new ≡ input.old) × (O.sink out.new ≡ O.sink out.old) }
    ensures usage { (result.0 ≡ Ending.Usage) ↔ (¬ (AreCommand (map string_bytes words.now))) }
    ensures kept { IsTrue K.counts_failures → result.0 ≡ Ending.OutOfMemory
        → (K.keeper keeper.new).faults ≡ (K.keeper keeper.old).faults }
    ensures untouched { result.0 ≡ Ending.Usage
        → (input.new ≡ input.old) × (out.new ≡ out.old) × (result.1 ≡ disk) × (spare.new ≡ spare.old)
        × (gates.new ≡ gates.old) × (keeper.new ≡ keeper.old) }
{
    match read_words(alloc, words) {
        Ok(command) => do_command(
            rt, alloc, &command, input, out, disk, spare, gates, clock, keeper,
        ),
        Err(WordsFault::Usage) => (Ending::Usage, disk),
        Err(WordsFault::OutOfMemory) => (Ending::OutOfMemory, disk),
    }
}

// Does a command.
fn do_command<
    D: Disk + Send + Drop,
    G: Gate + Send,
    C: Clock + Send + Drop,
    I: Source,
    O: Sink,
    K: Keeper,
    R: Threads + Wait + Sync,
>(
    rt: &R,
    alloc: Global,
    command: &Command,
    input: &mut I,
    out: &mut O,
    disk: D,
    spare: &mut D,
    gates: &mut Vec<G>,
    clock: C,
    keeper: &mut K,
) -> (Ending, D)
    requires in_range { IsInRange command.now }
    requires gates { HasGates command.now (vec_len gates.old) }
    ensures ends { EndsAs G.gate G.Conn.source G.Conn.sink command.now (C.clock clock) result.0
        (record {
          input = I.source input.old;
          out = O.sink out.old;
          disk = D.disk disk;
          spare = D.disk spare.old;
          gates = gates.old.items;
          keeper = K.keeper keeper.old;
        })
        (record {
          input = I.source input.new;
          out = O.sink out.new;
          disk = D.disk result.1;
          spare = D.disk spare.new;
          gates = gates.new.items;
          keeper = K.keeper keeper.new;
        }) }
    ensures causes { HasCause G.gate result.0
        (record {
          input = I.source input.old;
          out = O.sink out.old;
          disk = D.disk disk;
          spare = D.disk spare.old;
          gates = gates.old.items;
          keeper = K.keeper keeper.old;
        })
        (record {
          input = I.source input.new;
          out = O.sink out.new;
          disk = D.disk result.1;
          spare = D.disk spare.new;
          gates = gates.new.items;
          keeper = K.keeper keeper.new;
        }) }
    ensures uses { Stays (uses_of command.now).input input.old input.new
        × Stays (uses_of command.now).out out.old out.new
        × Stays (uses_of command.now).disk disk result.1
        × Stays (uses_of command.now).spare spare.old spare.new
        × Stays (uses_of command.now).gates gates.old gates.new
        × Stays (uses_of command.now).keeper keeper.old keeper.new }
    ensures kept { IsTrue K.counts_failures → result.0 ≡ Ending.OutOfMemory
        → (K.keeper keeper.new).faults ≡ (K.keeper keeper.old).faults }
    ensures unread { ends_at_fault command.now ≡ false → IsUnopened result.0
        → (input.new ≡ input.old) × (O.sink out.new ≡ O.sink out.old) }
{
    match command {
        Command::Award { full } => (award(alloc, *full, input, out).ending(), disk),
        Command::Run { operator } => {
            let (own, disk) = run(alloc, operator, input, out, disk);
            (own.ending(), disk)
        }
        Command::Serve { operator, .. } => {
            let (own, disk) = serve(rt, alloc, operator, out, disk, gates, clock);
            (own.ending(), disk)
        }
        Command::Import { operator, key } => {
            let mut clock = clock;
            let sender = sender(operator, key);
            let (own, disk) = import(alloc, &sender, input, out, disk, &mut clock);
            (own.ending(), disk)
        }
        Command::Report {
            operator,
            key,
            query,
            csv,
        } => {
            let asked = inquiry(operator, key, query, *csv);
            let (own, disk) = report(alloc, &asked, out, disk);
            (own.ending(), disk)
        }
        Command::Migrate => {
            let (own, disk) = migrate(alloc, out, disk, spare);
            (own.ending(), disk)
        }
        Command::Check => {
            let (own, disk) = check(alloc, out, disk);
            (own.ending(), disk)
        }
        Command::FollowSend { from } => {
            let (own, disk) = follow_send(alloc, *from, out, disk);
            (own.ending(), disk)
        }
        Command::FollowTake => {
            let (own, disk) = follow_take(alloc, input, out, disk);
            (own.ending(), disk)
        }
        Command::Register { cusip } => {
            let (own, disk) = register(alloc, cusip, out, disk, keeper);
            (own.ending(), disk)
        }
        Command::Trial { seed, count } => (trial(alloc, *seed, *count, out).ending(), disk),
    }
}

fn sender(operator: &Ident, key: &Key) -> Sender
    ensures { result ≡ record { operator = operator.now; key = key.now } }
{
    Sender {
        operator: *operator,
        key: *key,
    }
}

fn inquiry(operator: &Ident, key: &Key, query: &Query, csv: bool) -> Inquiry
    ensures { result ≡ spec.inquiry operator.now key.now query.now csv }
{
    Inquiry {
        sender: sender(operator, key),
        query: *query,
        csv,
    }
}

// Nothing can be told of a failure to tell.
fn tell<E: Sink>(ending: &Ending, err: &mut E)
    ensures { Reports ending.now (E.sink err.old) (E.sink err.new) }
{
    match ending {
        Ending::Done => {}
        _ => say(ending.message().bytes(), err),
    }
}

fn say<E: Sink>(message: &[u8], err: &mut E)
    ensures { Tells (E.sink err.old) (E.sink err.new) message.now }
{
    let _ = err.write(message);
}
