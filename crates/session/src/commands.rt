// A session from its beginning, and how each command is carried out.
ghost use Rattle.std.specs.Prelude.{◌≡◌, ℤ, None, MatchOption, MatchResult};
ghost use Rattle.keying.specs.Told.{tells};
ghost use Rattle.session.specs.Commands.{Begun, Carried, Only, Opened, Tried, Asked};
ghost use Rattle.session.specs.Hands.{at_hand};
ghost use Rattle.session.specs.Promises.{Promised};
ghost use Rattle.session.specs.Requests.{answered, post_after};
ghost use Rattle.session.specs.Said.{done, no_draft, no_station, said};

use crate::answers::answer;
use crate::state::Session;
use crate::{calls, tasks};
use custody::station::Station;
use keying::draft::Draft;
use reading::rows;
use ring::counting::Counting;
use ring::engine::RingEngine;
use ring::turning::Turning;
use script::answer::Answer;
use script::command::Command;
use script::request::Request;
use std::alloc::{AllocError, Global};

impl Session {
    // Neither a draft nor a station yet, so that a row may name every place that a row can have.
    pub fn new() -> Session
        ensures degree { result.degree ≡ 4096 }
        ensures draft { result.draft ≡ None }
        ensures station { result.station ≡ None }
        ensures promised { Promised (at_hand result) }
    {
        Session {
            degree: rows::MAX_LENGTH,
            draft: None,
            station: None,
        }
    }

    // The degree of the first engine.
    pub fn degree(&self) -> usize
        ensures { result ≡ self.now.degree }
    {
        self.degree
    }

    // Carries out a command; where memory is wanting, all is as it was. A station keeps its promise throughout:
    // a clause and no ghost field, since the promise holds what was asked so far, and a ghost field holds no data.
    pub fn carry_out(&mut self, heap: Global, command: Command) -> Result<Answer, AllocError>
        ensures carried { MatchResult result (λ answer. Carried (at_hand self.old) command (said answer) (at_hand self.new)) (λ _. at_hand self.new ≡ at_hand self.old) }
        ensures promised { Promised (at_hand self.old) → Promised (at_hand self.new) }
    {
        match command {
            Command::Engines { field, binary } => Ok(self.begin(field, binary)),
            Command::Key { f, g } => Ok(self.key(f.as_slice(), g.as_slice())),
            Command::Commission => Ok(self.commission()),
            Command::Station(request) => self.ask(heap, request),
            Command::Apart(task) => tasks::carry_out(heap, task),
        }
    }

    // A new draft over two engines; the earlier draft and station are let go.
    fn begin(&mut self, field: Turning, binary: Turning) -> Answer
        ensures says { said result ≡ done }
        ensures begun { Begun (tells field.degree field.modulus binary.degree binary.modulus) (at_hand self.new) }
    {
        self.degree = field.degree();
        self.draft = Some(Draft::new(Counting::new(field), Counting::new(binary)));
        self.station = None;
        Answer::Done
    }

    // Keys the draft.
    fn key(&mut self, f: &[i16], g: &[i16]) -> Answer
        ensures { MatchOption (at_hand self.old).draft (Only no_draft (at_hand self.old) (said result) (at_hand self.new)) (λ draft. Tried draft f.now g.now (at_hand self.old) (said result) (at_hand self.new)) }
    {
        let Some(mut draft) = self.draft.take() else {
            return Answer::NoDraft;
        };
        let reply = draft.key(f, g);
        self.draft = Some(draft);
        answer(reply, Answer::Done)
    }

    // Gives up the draft for a station.
    fn commission(&mut self) -> Answer
        ensures { MatchOption (at_hand self.old).draft (Only no_draft (at_hand self.old) (said result) (at_hand self.new)) (λ draft. Opened draft (at_hand self.old) (said result) (at_hand self.new)) }
    {
        let Some(draft) = self.draft.take() else {
            return Answer::NoDraft;
        };
        self.station = Some(Station::commission(draft));
        Answer::Done
    }

    // Asks the station.
    fn ask(&mut self, heap: Global, request: Request) -> Result<Answer, AllocError>
        ensures { MatchResult result (λ answer. MatchOption (at_hand self.old).station (Only no_station (at_hand self.old) (said answer) (at_hand self.new)) (λ station. Asked (answered station request) (post_after station request) (at_hand self.old) (said answer) (at_hand self.new))) (λ _. at_hand self.new ≡ at_hand self.old) }
    {
        let Some(mut station) = self.station.take() else {
            return Ok(Answer::NoStation);
        };
        let answer = calls::carry_out(heap, &mut station, request);
        self.station = Some(station);
        answer
    }
}
