// Tickets, and what calls on the board answer.
ghost use Rattle.std.specs.Prelude.{◌≡◌, ◌^◌, ◌<◌, length};
ghost use Rattle.dd_board.specs.Fit.{IsFitTask, IsPlaced};
ghost use Rattle.dd_task.specs.Goals.{goal_for};

use dd_concept::{Items, Shared};
use dd_task::{Goal, Job, Key, Prop};
use std::marker::Model;

/// The right to answer a task, which a take gives: the numbers of its session and of the task there, its own number, which is
/// drawn per session from 0, the session's job, the task's key, the key's goal, and the propagations into the goal's peer.
#[derive(Drop)]
pub struct Ticket {
    pub(crate) session: u32,
    pub(crate) task: u32,
    pub(crate) number: u32,
    pub(crate) job: Shared<Job>,
    pub(crate) key: Key,
    pub(crate) goal: Goal,
    pub(crate) view: Items<Prop>,

    ghost asks: { goal ≡ goal_for job key },
    ghost few: { length view < 2 ^ 32 },
    ghost fits: { IsPlaced job → IsFitTask job key view },
}

impl Model for Ticket {
    ghost use Rattle.dd_board.specs.Boards.{TicketView};
    ghost use Rattle.dd_concept.specs.contracts.concept.Concept as e;
    ghost use Rattle.std.specs.Coded.{codes};

    ghost Value = { TicketView };

    ghost coded = { Prim.hlevel (codes, e.the_row.coded) };

    ghost view = { λ t. record {
      session = t.session;
      task = t.task;
      number = t.number;
      job = t.job;
      key = t.key;
      goal = t.goal;
      view = t.view;
    } };
}

impl Ticket {
    /// The number of the session, from 0.
    pub fn session(&self) -> u32
        ensures { result ≡ self.now.session }
    {
        self.session
    }

    /// The number of the task in its session, from 0.
    pub fn task(&self) -> u32
        ensures { result ≡ self.now.task }
    {
        self.task
    }

    /// The ticket's own number, which no other ticket of the session has.
    pub fn number(&self) -> u32
        ensures { result ≡ self.now.number }
    {
        self.number
    }

    /// The session's job.
    pub fn job(&self) -> &Job
        ensures { result.now ≡ self.now.job }
    {
        self.job.get()
    }

    /// The task's key.
    pub fn key(&self) -> &Key
        ensures { result.now ≡ self.now.key }
    {
        &self.key
    }

    /// The goal of the key.
    pub fn goal(&self) -> &Goal
        ensures value { result.now ≡ self.now.goal }
        ensures asks { self.now.goal ≡ goal_for self.now.job self.now.key }
    {
        &self.goal
    }

    /// The propagations into the goal's peer that the verdict is to take account of, in the order in which they came.
    pub fn view(&self) -> &[Prop]
        ensures value { result.now ≡ self.now.view }
        ensures few { length self.now.view < 2 ^ 32 }
        ensures fits { IsPlaced self.now.job → IsFitTask self.now.job self.now.key self.now.view }
    {
        self.view.as_slice()
    }
}

/// What a take answers: a ticket; that nothing may be taken while a wanted task is held; or that no session is going.
#[derive(Drop)]
pub enum Take {
    Ticket(Ticket),
    Busy,
    Settled,
}

/// What became of a ticket: its verdict was posted, or it was given back as asked; its session is not going, and it was given
/// back; or it is not that of the task's holder. Then `holder` is the number of the holder now, if there is one, `number` is the
/// ticket's, and `view` is the first place at which the propagations into the goal's peer differ from the ticket's, or how
/// many the ticket has.
#[derive(Clone, Copy, Debug, PartialEq, Eq)]
pub enum Posted {
    Ok,
    Ended,
    NotTaken {
        holder: Option<u32>,
        number: u32,
        view: u32,
    },
}
