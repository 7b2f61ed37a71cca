ghost use Rattle.std.specs.Prelude.{◌≡◌, ◌↔◌, ◌^◌, ◌<◌, ◌++◌, ◌∷◌, [], IfOk, IfErr, OnErr, OnOk, IsTrue, Some, length, option_map, sum_by, map, slice_get};
ghost use Rattle.dd_task.specs.Verdicts.{IsRight};
ghost use Rattle.dd_task.specs.declared.verdict.Verdict.{Verdict as VerdictView};
ghost use Rattle.dd_board.specs.Boards.{AreLegal, IsEvent, OfSession, of_session, task_at, tasks_in};
ghost use Rattle.dd_board.specs.Legal.{begun, empty_start};
ghost use Rattle.dd_board.specs.Posts.{GivesBack, IsGiven, IsGoingAt, IsTaken, Posts, event_by, lines_by};
ghost use Rattle.dd_board.specs.Releases.{all_released};
ghost use Rattle.dd_board.specs.Sessions.{AreKept, session_view};
ghost use Rattle.dd_board.specs.Stands.{IsFound};
ghost use Rattle.dd_board.specs.declared.standing.Found.{Found as FoundView};
ghost use Rattle.dd_board.specs.Standing.{IsOutcome, posts};
ghost use Rattle.dd_board.specs.Takes.{IsDrawn, Takes};
ghost use Rattle.dd_board.specs.View.{SessionView, Task, into_peer};
ghost use Rattle.dd_board.specs.Wanted.{IsWanted};

use crate::NoMemory;
use crate::beginning::begin;
use crate::event::{Event, Outcome, TaskState};
use crate::giving::{give, release_at};
use crate::holding::{props_into, refusal};
use crate::posting::{post_closed, post_open, post_spent};
use crate::session::Session;
use crate::standing::{Found, find, is_going, outcome_of};
use crate::taking::{slot_in, take_next};
use crate::ticket::{Posted, Take, Ticket};
use dd_concept::Items;
use dd_interp::Interp;
use dd_task::{Job, Key, Line, Prop, SpentRun, Verdict};
use std::alloc::Global;
use std::marker::Model;

/// The sessions, in the order in which they were opened. Each came about by allowed events.
#[derive(Drop)]
pub struct Board {
    sessions: Vec<Session>,

    ghost kept: { AreKept sessions.items },
    ghost few: { length sessions.items < 2 ^ 32 },
}

impl Model for Board {
    ghost use Rattle.std.specs.Prelude.{List, map};
    ghost use Rattle.dd_board.specs.Sessions.{session_view};
    ghost use Rattle.dd_board.specs.View.{SessionView};
    ghost use Rattle.dd_concept.specs.contracts.concept.Concept as e;
    ghost use Rattle.std.specs.Coded.{codes};

    ghost Value = { List SessionView };

    ghost coded = { Prim.hlevel (codes, e.the_row.coded) };

    ghost view = { λ b. map session_view b.sessions.items };
}

impl Board {
    /// The board without sessions. It takes no memory.
    pub fn new(alloc: Global) -> Result<Board, NoMemory>
        ensures { IfOk result (λ b. b ≡ []) }
    {
        Ok(Board {
            sessions: Vec::new(alloc),
        })
    }

    /// One more session, for the job, with the root task, which is unknown and not held. Its number is answered, from 0.
    pub fn open_session(&mut self, alloc: Global, job: Job) -> Result<u32, NoMemory>
        requires { job.query.peer < length job.pinned.peers }
        ensures opened { IfOk result (λ n. (n ≡ length self.old) × (self.new ≡ self.old ++ begun job (empty_start job.pinned) ∷ [])) }
        ensures kept { OnErr result (self.new ≡ self.old) }
    {
        open_in(alloc, &mut self.sessions, job)
    }

    /// A ticket for the first task that is due and wanted, by session and then task, of a session that is going. `worker` is
    /// only noted in the journal. Without memory nothing changes.
    pub fn take(&mut self, alloc: Global, worker: u32) -> Result<Take, NoMemory>
        ensures took { IfOk result (λ t. Takes self.old self.new worker t) }
        ensures kept { OnErr result (self.new ≡ self.old) }
    {
        match find(self.sessions.as_slice()) {
            Found::Due(n, t) => {
                let ticket = take_at(alloc, &mut self.sessions, n, t, worker)?;
                Ok(Take::Ticket(ticket))
            }
            Found::Busy => Ok(Take::Busy),
            Found::Settled => Ok(Take::Settled),
        }
    }

    /// Posts what was found of the ticket's goal. Where its session is not going, the ticket is only given back. Without memory
    /// nothing changes, and both are handed back.
    pub fn post(
        &mut self,
        alloc: Global,
        ticket: Ticket,
        verdict: Verdict,
    ) -> Result<Posted, (Ticket, Verdict)>
        requires { IsRight ticket.job ticket.goal ticket.view verdict }
        ensures posted { IfOk result (λ p. Posts self.old self.new ticket verdict p) }
        ensures kept { OnErr result (self.new ≡ self.old) }
        ensures back { IfErr result (λ e. (e.0 ≡ ticket) × (e.1 ≡ verdict)) }
    {
        post_ticket(alloc, &mut self.sessions, ticket, verdict)
    }

    /// Gives the ticket back. It takes no memory.
    pub fn give_back(&mut self, ticket: Ticket) -> Posted
        ensures { GivesBack self.old self.new ticket result }
    {
        give_ticket(&mut self.sessions, &ticket)
    }

    /// Gives all tickets back that are out, by session and then task; none of them will be taken for its task's any more. It takes
    /// no memory.
    pub fn release(&mut self)
        ensures { self.new ≡ all_released self.old }
    {
        release_each(&mut self.sessions);
    }

    /// Whether the root depends on the task: it is the root, or one of those whose keys the model of such a task raised.
    pub fn is_wanted(&self, session: u32, task: u32) -> bool
        requires { task < tasks_in self.now session }
        ensures { OfSession (λ s. IsTrue result ↔ IsWanted s task) self.now session }
    {
        slot_in(session_in(&self.sessions, session), task).is_wanted
    }

    /// How the session stands.
    pub fn outcome(&self, session: u32) -> Outcome
        requires { session < length self.now }
        ensures { OfSession (λ s. IsOutcome s result) self.now session }
    {
        outcome_of(session_in(&self.sessions, session))
    }

    /// How many verdicts were posted, in all sessions.
    pub fn posts(&self) -> u64
        ensures { result ≡ sum_by posts self.now }
    {
        posts_of(self.sessions.as_slice())
    }

    /// How many sessions there are.
    pub fn sessions(&self) -> u32
        ensures count { result ≡ length self.now }
        ensures legal { AreLegal self.now }
    {
        self.sessions.len() as u32
    }

    /// What the session is to answer.
    pub fn job(&self, session: u32) -> &Job
        requires { session < length self.now }
        ensures { of_session (λ (s : SessionView). s.job) self.now session ≡ Some result.now }
    {
        self.sessions[session as usize].job.get()
    }

    /// How many tasks the session has.
    pub fn tasks(&self, session: u32) -> u32
        requires { session < length self.now }
        ensures { result ≡ tasks_in self.now session }
    {
        session_in(&self.sessions, session).tasks.len() as u32
    }

    /// The key of the task.
    pub fn key(&self, session: u32, task: u32) -> &Key
        requires { task < tasks_in self.now session }
        ensures { option_map (λ (t : Task). t.key) (task_at self.now session task) ≡ Some result.now }
    {
        &self.sessions[session as usize].tasks.as_slice()[task as usize].key
    }

    /// What is known of the task.
    pub fn state(&self, session: u32, task: u32) -> &TaskState
        requires { task < tasks_in self.now session }
        ensures { option_map (λ (t : Task). t.state) (task_at self.now session task) ≡ Some result.now }
    {
        &self.sessions[session as usize].tasks.as_slice()[task as usize].state
    }

    /// The lines of the session.
    pub fn lines(&self, session: u32) -> &[Line]
        requires { session < length self.now }
        ensures { of_session (λ (s : SessionView). s.lines) self.now session ≡ Some result.now }
    {
        self.sessions[session as usize].lines.as_slice()
    }

    /// The propagations into the peer, in the order in which they were proved; none where the peer is not declared.
    pub fn props(&self, session: u32, peer: u32) -> &[Prop]
        requires { session < length self.now }
        ensures { of_session (λ (s : SessionView). into_peer s.props peer) self.now session ≡ Some result.now }
    {
        props_into(session_in(&self.sessions, session), peer)
    }

    /// The events of the session.
    pub fn journal(&self, session: u32) -> &[Event]
        requires { session < length self.now }
        ensures { of_session (λ (s : SessionView). s.journal) self.now session ≡ Some result.now }
    {
        self.sessions[session as usize].journal.as_slice()
    }
}

fn session_in(sessions: &Vec<Session>, n: u32) -> &Session
    requires { n < length sessions.now.items }
    ensures { slice_get sessions.now.items n ≡ Some result.now }
{
    &sessions[n as usize]
}

// Takes the task of the session.
fn take_at(
    alloc: Global,
    sessions: &mut Vec<Session>,
    n: u32,
    t: u32,
    worker: u32,
) -> Result<Ticket, NoMemory>
    requires kept { AreKept sessions.old.items }
    requires found { IsFound (map session_view sessions.old.items) (FoundView.Due n t) }
    ensures drawn { IfOk result (λ ticket. IsDrawn (map session_view sessions.old.items) (map session_view sessions.new.items) worker ticket) }
    ensures same { OnErr result (map session_view sessions.new.items ≡ map session_view sessions.old.items) }
    ensures kept { AreKept sessions.new.items }
    ensures few { length sessions.new.items ≡ length sessions.old.items }
{
    match take_next(alloc, &mut sessions[n as usize], n, t, worker) {
        Ok(ticket) => Ok(ticket),
        Err(e) => Err(e),
    }
}

fn posts_of(sessions: &[Session]) -> u64
    requires kept { AreKept sessions.now }
    requires few { length sessions.now < 2 ^ 32 }
    ensures { result ≡ sum_by posts (map session_view sessions.now) }
{
    let mut posts = 0;
    for s in sessions {
        posts += s.posts;
    }
    posts
}

// Gives the ticket's task back.
fn give_at(sessions: &mut Vec<Session>, t: &Ticket)
    requires kept { AreKept sessions.old.items }
    requires taken { IsTaken (map session_view sessions.old.items) t.now }
    ensures given { IsGiven (map session_view sessions.old.items) (map session_view sessions.new.items) t.now }
    ensures kept { AreKept sessions.new.items }
    ensures few { length sessions.new.items ≡ length sessions.old.items }
{
    give(&mut sessions[t.session() as usize], t.task(), t.number());
}

// Posts the verdict, or gives the ticket back where its session is not going.
fn post_at(
    alloc: Global,
    sessions: &mut Vec<Session>,
    ticket: Ticket,
    verdict: Verdict,
) -> Result<Posted, (Ticket, Verdict)>
    requires kept { AreKept sessions.old.items }
    requires taken { IsTaken (map session_view sessions.old.items) ticket }
    requires right { IsRight ticket.job ticket.goal ticket.view verdict }
    ensures posted { IfOk result (λ p. Posts (map session_view sessions.old.items) (map session_view sessions.new.items) ticket verdict p) }
    ensures same { OnErr result (map session_view sessions.new.items ≡ map session_view sessions.old.items) }
    ensures back { IfErr result (λ e. (e.0 ≡ ticket) × (e.1 ≡ verdict)) }
    ensures kept { AreKept sessions.new.items }
    ensures few { length sessions.new.items ≡ length sessions.old.items }
{
    if !is_going_at(sessions, &ticket) {
        give_at(sessions, &ticket);
        return Ok(Posted::Ended);
    }
    match verdict {
        Verdict::Closed(lines) => return closed_verdict(alloc, sessions, ticket, lines),
        Verdict::Open(model, at) => return open_verdict(alloc, sessions, ticket, model, at),
        Verdict::Spent(run) => return spent_verdict(sessions, ticket, run),
    }
}

fn closed_verdict(
    alloc: Global,
    sessions: &mut Vec<Session>,
    ticket: Ticket,
    lines: Items<Line>,
) -> Result<Posted, (Ticket, Verdict)>
    requires kept { AreKept sessions.old.items }
    requires taken { IsTaken (map session_view sessions.old.items) ticket }
    requires going { IsGoingAt (map session_view sessions.old.items) ticket }
    requires right { IsRight ticket.job ticket.goal ticket.view (VerdictView.Closed lines) }
    ensures posted { IfOk result (λ p. Posts (map session_view sessions.old.items) (map session_view sessions.new.items) ticket (VerdictView.Closed lines) p) }
    ensures same { OnErr result (map session_view sessions.new.items ≡ map session_view sessions.old.items) }
    ensures back { IfErr result (λ e. (e.0 ≡ ticket) × (e.1 ≡ VerdictView.Closed lines)) }
    ensures kept { AreKept sessions.new.items }
    ensures few { length sessions.new.items ≡ length sessions.old.items }
{
    match closed_at(alloc, sessions, &ticket, lines.as_slice()) {
        Ok(()) => return Ok(Posted::Ok),
        Err(_) => return Err((ticket, Verdict::Closed(lines))),
    }
}

fn open_verdict(
    alloc: Global,
    sessions: &mut Vec<Session>,
    ticket: Ticket,
    model: Interp,
    at: u32,
) -> Result<Posted, (Ticket, Verdict)>
    requires kept { AreKept sessions.old.items }
    requires taken { IsTaken (map session_view sessions.old.items) ticket }
    requires going { IsGoingAt (map session_view sessions.old.items) ticket }
    requires right { IsRight ticket.job ticket.goal ticket.view (VerdictView.Open model at) }
    ensures posted { IfOk result (λ p. Posts (map session_view sessions.old.items) (map session_view sessions.new.items) ticket (VerdictView.Open model at) p) }
    ensures same { OnErr result (map session_view sessions.new.items ≡ map session_view sessions.old.items) }
    ensures back { IfErr result (λ e. (e.0 ≡ ticket) × (e.1 ≡ VerdictView.Open model at)) }
    ensures kept { AreKept sessions.new.items }
    ensures few { length sessions.new.items ≡ length sessions.old.items }
{
    match open_at(alloc, sessions, &ticket, model, at) {
        Ok(()) => return Ok(Posted::Ok),
        Err(model) => return Err((ticket, Verdict::Open(model, at))),
    }
}

fn spent_verdict(
    sessions: &mut Vec<Session>,
    ticket: Ticket,
    run: SpentRun,
) -> Result<Posted, (Ticket, Verdict)>
    requires kept { AreKept sessions.old.items }
    requires taken { IsTaken (map session_view sessions.old.items) ticket }
    requires going { IsGoingAt (map session_view sessions.old.items) ticket }
    requires right { IsRight ticket.job ticket.goal ticket.view (VerdictView.Spent run) }
    ensures posted { IfOk result (λ p. Posts (map session_view sessions.old.items) (map session_view sessions.new.items) ticket (VerdictView.Spent run) p) }
    ensures same { OnErr result (map session_view sessions.new.items ≡ map session_view sessions.old.items) }
    ensures back { IfErr result (λ e. (e.0 ≡ ticket) × (e.1 ≡ VerdictView.Spent run)) }
    ensures kept { AreKept sessions.new.items }
    ensures few { length sessions.new.items ≡ length sessions.old.items }
{
    spent_at(sessions, &ticket, run);
    Ok(Posted::Ok)
}

fn is_going_at(sessions: &Vec<Session>, t: &Ticket) -> bool
    requires kept { AreKept sessions.now.items }
    requires taken { IsTaken (map session_view sessions.now.items) t.now }
    ensures { IsTrue result ↔ IsGoingAt (map session_view sessions.now.items) t.now }
{
    is_going(session_in(sessions, t.session()))
}

fn closed_at(
    alloc: Global,
    sessions: &mut Vec<Session>,
    t: &Ticket,
    own: &[Line],
) -> Result<(), NoMemory>
    requires kept { AreKept sessions.old.items }
    requires taken { IsTaken (map session_view sessions.old.items) t.now }
    requires going { IsGoingAt (map session_view sessions.old.items) t.now }
    requires right { IsRight t.now.job t.now.goal t.now.view (VerdictView.Closed own.now) }
    ensures event { OnOk result (IsEvent t.now.session (event_by t.now (VerdictView.Closed own.now)) (lines_by (map session_view sessions.old.items) t.now (VerdictView.Closed own.now)) (map session_view sessions.old.items) (map session_view sessions.new.items)) }
    ensures same { OnErr result (map session_view sessions.new.items ≡ map session_view sessions.old.items) }
    ensures kept { AreKept sessions.new.items }
    ensures few { length sessions.new.items ≡ length sessions.old.items }
{
    let _asks = t.goal();
    match post_closed(
        alloc,
        &mut sessions[t.session() as usize],
        t.task(),
        t.number(),
        t.key(),
        t.view(),
        own,
    ) {
        Ok(()) => Ok(()),
        Err(e) => Err(e),
    }
}

fn open_at(
    alloc: Global,
    sessions: &mut Vec<Session>,
    t: &Ticket,
    model: Interp,
    at: u32,
) -> Result<(), Interp>
    requires kept { AreKept sessions.old.items }
    requires taken { IsTaken (map session_view sessions.old.items) t.now }
    requires going { IsGoingAt (map session_view sessions.old.items) t.now }
    requires right { IsRight t.now.job t.now.goal t.now.view (VerdictView.Open model at) }
    ensures event { OnOk result (IsEvent t.now.session (event_by t.now (VerdictView.Open model at)) [] (map session_view sessions.old.items) (map session_view sessions.new.items)) }
    ensures same { OnErr result (map session_view sessions.new.items ≡ map session_view sessions.old.items) }
    ensures back { IfErr result (λ m. m ≡ model) }
    ensures kept { AreKept sessions.new.items }
    ensures few { length sessions.new.items ≡ length sessions.old.items }
{
    let seen = t.view().len() as u32;
    let peer = t.goal().peer;
    match post_open(
        alloc,
        &mut sessions[t.session() as usize],
        t.task(),
        t.number(),
        seen,
        peer,
        model,
        at,
    ) {
        Ok(()) => Ok(()),
        Err(model) => Err(model),
    }
}

fn spent_at(sessions: &mut Vec<Session>, t: &Ticket, run: SpentRun)
    requires kept { AreKept sessions.old.items }
    requires taken { IsTaken (map session_view sessions.old.items) t.now }
    requires going { IsGoingAt (map session_view sessions.old.items) t.now }
    requires right { IsRight t.now.job t.now.goal t.now.view (VerdictView.Spent run) }
    ensures event { IsEvent t.now.session (event_by t.now (VerdictView.Spent run)) [] (map session_view sessions.old.items) (map session_view sessions.new.items) }
    ensures kept { AreKept sessions.new.items }
    ensures few { length sessions.new.items ≡ length sessions.old.items }
{
    let _asks = t.goal();
    post_spent(
        &mut sessions[t.session() as usize],
        t.task(),
        t.number(),
        run,
    );
}

fn give_ticket(sessions: &mut Vec<Session>, t: &Ticket) -> Posted
    requires { AreKept sessions.old.items }
    ensures gives { GivesBack (map session_view sessions.old.items) (map session_view sessions.new.items) t.now result }
    ensures kept { AreKept sessions.new.items }
    ensures few { length sessions.new.items ≡ length sessions.old.items }
{
    if let Some(refused) = refusal(sessions.as_slice(), t) {
        return refused;
    }
    give_at(sessions, t);
    Posted::Ok
}

fn post_ticket(
    alloc: Global,
    sessions: &mut Vec<Session>,
    ticket: Ticket,
    verdict: Verdict,
) -> Result<Posted, (Ticket, Verdict)>
    requires kept { AreKept sessions.old.items }
    requires right { IsRight ticket.job ticket.goal ticket.view verdict }
    ensures posted { IfOk result (λ p. Posts (map session_view sessions.old.items) (map session_view sessions.new.items) ticket verdict p) }
    ensures same { OnErr result (map session_view sessions.new.items ≡ map session_view sessions.old.items) }
    ensures back { IfErr result (λ e. (e.0 ≡ ticket) × (e.1 ≡ verdict)) }
    ensures kept { AreKept sessions.new.items }
    ensures few { length sessions.new.items ≡ length sessions.old.items }
{
    if let Some(refused) = refusal(sessions.as_slice(), &ticket) {
        return Ok(refused);
    }
    post_at(alloc, sessions, ticket, verdict)
}

fn release_each(sessions: &mut Vec<Session>)
    requires { AreKept sessions.old.items }
    ensures released { map session_view sessions.new.items ≡ all_released (map session_view sessions.old.items) }
    ensures kept { AreKept sessions.new.items }
    ensures few { length sessions.new.items ≡ length sessions.old.items }
{
    for n in 0..sessions.len() {
        release_at(sessions, n);
    }
}

fn open_in(alloc: Global, sessions: &mut Vec<Session>, job: Job) -> Result<u32, NoMemory>
    requires kept { AreKept sessions.old.items }
    requires few { length sessions.old.items < 2 ^ 32 }
    requires low { job.query.peer < length job.pinned.peers }
    ensures opened { IfOk result (λ n. (n ≡ length (map session_view sessions.old.items)) × (map session_view sessions.new.items ≡ map session_view sessions.old.items ++ begun job (empty_start job.pinned) ∷ [])) }
    ensures same { OnErr result (map session_view sessions.new.items ≡ map session_view sessions.old.items) }
    ensures kept { AreKept sessions.new.items }
    ensures few { length sessions.new.items < 2 ^ 32 }
{
    let count = sessions.len();
    if count >= u32::MAX as usize {
        return Err(NoMemory);
    }
    let session = begin(alloc, job)?;
    sessions.push(session)?;
    Ok(count as u32)
}
