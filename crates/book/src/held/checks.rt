// Whether a call is taken: its checks, in the order of the rule book.
ghost use Rattle.std.specs.Prelude.{◌≡◌, [], if◌then◌else◌, Ok, Err};
ghost use Rattle.rules.specs.Refusals.{first};
ghost use Rattle.rules.specs.Checks.{outside, minimum_outside, is_plain, limit_allowed, on_open_allowed, market_allowed, day_outside, order_of, open_lots, id_checks, room_checks, limit_checks, on_open_checks, market_checks, cancel_checks, line_up_checks, successor_checks, trial_checks};
ghost use Rattle.rules.specs.declared.calls.Phase.TheVariants.{PreOpen, Open};
ghost use Rattle.table.specs.Tables.{open_orders};
ghost use Rattle.book.specs.Model.{machine, verdict, verdict_on};

use super::Held;
use policy::MOST_LOTS;
use rules::calls::{Condition, LimitEntry, MarketEntry, OnOpenEntry, Phase, TimeInForce, Trial};
use rules::limits::{LAST_NUMBER, MOST_IDS, MOST_ORDERS};
use rules::refusal::Refusal;

// Ok, unless a check fails: plainer at each check than `(!fails).then_some(()).ok_or(refusal)`.
pub(crate) fn unless(fails: bool, refusal: Refusal) -> Result<(), Refusal>
    ensures { result ≡ (if fails then Err refusal else Ok tt) }
{
    if fails { Err(refusal) } else { Ok(()) }
}

pub(crate) fn outside(low: u32, high: u32, n: u32) -> bool
    ensures { result ≡ outside low high n }
{
    !(low..=high).contains(&n)
}

// Whether an MV minimum is not from 1 to the volume.
fn minimum_outside(condition: Condition, lots: u32) -> bool
    ensures { result ≡ minimum_outside condition lots }
{
    match condition {
        Condition::Mv(minimum) => outside(1, lots, minimum),
        _ => false,
    }
}

fn is_plain(t: TimeInForce) -> bool
    ensures { result ≡ is_plain t }
{
    t == TimeInForce::Plain
}

fn limit_allowed(phase: Phase, t: TimeInForce, condition: Condition) -> bool
    ensures { result ≡ limit_allowed phase t condition }
{
    match (phase, condition) {
        (_, Condition::Unconditional) => true,
        (Phase::PreOpen, _) => false,
        (Phase::Open, Condition::Mv(_)) => true,
        (Phase::Open, _) => is_plain(t),
    }
}

fn market_allowed(t: TimeInForce, condition: Condition) -> bool
    ensures { result ≡ market_allowed t condition }
{
    match condition {
        Condition::Ic => false,
        _ => is_plain(t),
    }
}

fn on_open_allowed(t: TimeInForce) -> bool
    ensures { result ≡ on_open_allowed t }
{
    !matches!(t, TimeInForce::Gis)
}

impl Held {
    fn day_outside(&self, t: TimeInForce) -> bool
        ensures { result ≡ day_outside (machine PreOpen self.now) t }
    {
        match t {
            TimeInForce::Gtc(Some(day)) => outside(self.today.into(), self.last.into(), day.into()),
            _ => false,
        }
    }

    // 1 and 2: the ID is one of the book's, and its line up.
    pub(crate) fn check_id(&self, id: u8) -> Result<(), Refusal>
        ensures { result ≡ verdict (first (id_checks (machine PreOpen self.now) id [])) }
    {
        unless(outside(1, MOST_IDS.into(), id.into()), Refusal::NoSuchId)?;
        unless(self.lines.of(id).is_down(), Refusal::LineIsDown)
    }

    // 8 and 9: there is room for one order more, and a number for it.
    fn check_room(&self) -> Result<(), Refusal>
        ensures { result ≡ verdict (first (room_checks (machine PreOpen self.now))) }
    {
        unless(self.floor.table.len() >= MOST_ORDERS, Refusal::BookFull)?;
        unless(self.next > LAST_NUMBER, Refusal::NumbersUsedUp)
    }

    // 1 to 9 of a limit entry.
    pub(crate) fn check_limit(&self, phase: Phase, e: LimitEntry) -> Result<(), Refusal>
        ensures { result ≡ verdict (first (limit_checks (machine phase self.now) e)) }
    {
        self.check_id(e.id)?;
        unless(!self.ladder.takes(e.price), Refusal::PriceNotTaken)?;
        unless(outside(1, MOST_LOTS, e.lots), Refusal::VolumeOutOfRange)?;
        unless(
            minimum_outside(e.condition, e.lots),
            Refusal::MinimumOutOfRange,
        )?;
        unless(
            !limit_allowed(phase, e.lifetime, e.condition),
            Refusal::ModifierNotAllowed,
        )?;
        unless(self.day_outside(e.lifetime), Refusal::DayOutOfRange)?;
        self.check_room()
    }

    // 1, 2 and 4 to 9 of an On-Open entry.
    pub(crate) fn check_on_open(&self, e: OnOpenEntry) -> Result<(), Refusal>
        ensures { result ≡ verdict (first (on_open_checks (machine PreOpen self.now) e)) }
    {
        self.check_id(e.id)?;
        unless(outside(1, MOST_LOTS, e.lots), Refusal::VolumeOutOfRange)?;
        unless(!on_open_allowed(e.lifetime), Refusal::ModifierNotAllowed)?;
        unless(self.day_outside(e.lifetime), Refusal::DayOutOfRange)?;
        self.check_room()
    }

    // 1, 2 and 4 to 9 of a market entry: it never rests, so a full book takes it.
    pub(crate) fn check_market(&self, e: MarketEntry) -> Result<(), Refusal>
        ensures { result ≡ verdict (first (market_checks (machine Open self.now) e)) }
    {
        self.check_id(e.id)?;
        unless(outside(1, MOST_LOTS, e.lots), Refusal::VolumeOutOfRange)?;
        unless(
            minimum_outside(e.condition, e.lots),
            Refusal::MinimumOutOfRange,
        )?;
        unless(
            !market_allowed(e.lifetime, e.condition),
            Refusal::ModifierNotAllowed,
        )?;
        unless(self.next > LAST_NUMBER, Refusal::NumbersUsedUp)
    }

    pub(crate) fn check_trial(&self, t: Trial) -> Result<(), Refusal>
        ensures { result ≡ verdict (first (trial_checks (machine PreOpen self.now) t)) }
    {
        unless(!self.ladder.takes(t.price), Refusal::PriceNotTaken)?;
        unless(outside(1, MOST_LOTS, t.lots), Refusal::VolumeOutOfRange)?;
        unless(self.floor.table.len() >= MOST_ORDERS, Refusal::BookFull)
    }

    pub(crate) fn check_line_up(&self, id: u8) -> Result<(), Refusal>
        ensures { result ≡ verdict (first (line_up_checks (machine PreOpen self.now) id)) }
    {
        unless(outside(1, MOST_IDS.into(), id.into()), Refusal::NoSuchId)?;
        unless(!self.lines.of(id).is_down(), Refusal::LineIsUp)
    }

    // The ID is one of the book's, and may name the other.
    pub(crate) fn check_successor(&self, id: u8, successor: u8) -> Result<(), Refusal>
        ensures { result ≡ verdict (first (successor_checks (machine PreOpen self.now) id successor)) }
    {
        unless(outside(1, MOST_IDS.into(), id.into()), Refusal::NoSuchId)?;
        unless(
            outside(1, MOST_IDS.into(), successor.into()) || successor == id,
            Refusal::SuccessorNotAllowed,
        )
    }

    // 1, 2, 10 and 11: there is such an order, and the ID holds it. Answers its lots.
    pub(crate) fn held_lots(&self, id: u8, number: u32) -> Result<u32, Refusal>
        ensures { result ≡ verdict_on (first (cancel_checks (machine PreOpen self.now) id number)) (open_lots (order_of number (open_orders self.now.floor.table))) }
    {
        self.check_id(id)?;
        let order = self.floor.table.find(number).ok_or(Refusal::NoSuchOrder)?;
        unless(order.id != id, Refusal::HeldByAnother)?;
        Ok(order.lots)
    }
}
