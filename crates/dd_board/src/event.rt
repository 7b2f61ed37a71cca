// What is known of a task, the events of a session, and how it stands.
use dd_concept::Items;
use dd_interp::Interp;
use dd_task::SpentRun;

/// What is known of a task. An open one has the number of the event that opened it, in the session's journal, the numbers of the
/// tasks whose keys its model raised, and how many propagations into its goal's peer the model was made under. A proved one has
/// the number of the line that proves it.
#[derive(Drop)]
pub enum TaskState {
    Unknown,
    Open {
        event: u32,
        raised: Items<u32>,
        seen: u32,
    },
    Proved {
        line: u32,
    },
}

/// One step of a session. `number` is that of a ticket, and `seen` says how many propagations into its goal's peer the ticket
/// has. `lines` says how many lines were appended. `at` is an element of the model that has the goal's label.
#[derive(Drop)]
pub enum Event {
    Take {
        task: u32,
        worker: u32,
        number: u32,
        seen: u32,
    },
    Closed {
        task: u32,
        number: u32,
        lines: u32,
    },
    Opened {
        task: u32,
        number: u32,
        model: Interp,
        at: u32,
    },
    Spent {
        task: u32,
        number: u32,
        run: SpentRun,
    },
    Give {
        task: u32,
        number: u32,
    },
}

/// How a session stands: the first of these that applies. The root is proved; a spent run was posted; nothing that is wanted is
/// due or held; there were as many posts as the budget has verdicts; it is going.
#[derive(Clone, Copy, Debug, PartialEq, Eq)]
pub enum Outcome {
    Proved,
    SpentRun,
    Quiet,
    SpentVerdicts,
    Going,
}
