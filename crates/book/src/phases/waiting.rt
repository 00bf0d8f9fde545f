// Making a book, and the calls that it takes before its opening.
ghost use Rattle.std.specs.Prelude.{◌≡◌};
ghost use Rattle.rules.specs.declared.calls.Answer.TheVariants.{Entered};
ghost use Rattle.rules.specs.declared.calls.Call.TheVariants.{EnterLimit, EnterOnOpen};
ghost use Rattle.rules.specs.Machine.{made, nearest_day};
ghost use Rattle.rules.specs.declared.calls.Phase.TheVariants.{PreOpen};
ghost use Rattle.book.specs.Model.{waiting, Calls, said};

use super::Book;
use crate::held::Held;
use crate::stage::Waiting;
use matching::Floor;
use policy::Policy;
use rules::calls::{EntryAnswer, Hours, LimitEntry, OnOpenEntry, Phase};
use rules::ladder::Ladder;
use rules::limits::{FIRST_DAY, LAST_DAY};
use rules::order::Kind;
use rules::refusal::Refusal;
use table::lines::Lines;
use table::table::Table;
use table::tape::Tape;

// A day outside the range is taken as the nearest end.
fn nearest_day(day: u16) -> u16
    ensures { result ≡ nearest_day day }
{
    day.clamp(FIRST_DAY, LAST_DAY)
}

impl<O: Policy, S: Policy> Book<Waiting, O, S> {
    // A book as made: before a day session, without orders.
    pub fn new(
        opening: O,
        session: S,
        ladder: Ladder,
        today: u16,
        last: u16,
        first_number: u32,
    ) -> Book<Waiting, O, S>
        ensures machine { waiting result ≡ made ladder today last first_number }
        ensures opening { result.opening ≡ opening }
        ensures session { result.session ≡ session }
    {
        let today = nearest_day(today);
        Book {
            stage: Waiting,
            opening,
            session,
            held: Held {
                ladder,
                today,
                last: today.max(nearest_day(last)),
                next: first_number.max(1),
                hours: Hours::Day,
                floor: Floor {
                    table: Table::new(),
                    tape: Tape::new(),
                },
                lines: Lines::new(),
            },
        }
    }

    pub fn limit(&mut self, e: LimitEntry) -> Result<EntryAnswer, Refusal>
        ensures { Calls O.Policy.rule S.Policy.rule PreOpen self.old self.new (EnterLimit e) (said Entered result) }
    {
        self.held.check_limit(Phase::PreOpen, e)?;
        Ok(
            self.held
                .wait(e.id, e.side, Kind::Limit(e.price), e.lots, e.lifetime),
        )
    }

    pub fn on_open(&mut self, e: OnOpenEntry) -> Result<EntryAnswer, Refusal>
        ensures { Calls O.Policy.rule S.Policy.rule PreOpen self.old self.new (EnterOnOpen e) (said Entered result) }
    {
        self.held.check_on_open(e)?;
        Ok(
            self.held
                .wait(e.id, e.side, Kind::OnOpen, e.lots, e.lifetime),
        )
    }
}
