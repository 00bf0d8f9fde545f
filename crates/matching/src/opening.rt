// The opening of a book: its three stages, or the withdrawal of its On-Open orders.
ghost use Rattle.std.specs.Prelude.{◌≡◌, ◌+◌, ◌^◌, ◌<◌, ◌≤◌, true, not, [], length, filter};
ghost use Rattle.rules.specs.Sides.{is};
ghost use Rattle.rules.specs.Orders.{level, on_open};
ghost use Rattle.rules.specs.Price.{volume as volume_of, price_at};
ghost use Rattle.rules.specs.Steps.{pair_of};
ghost use Rattle.rules.specs.Trades.{lined};
ghost use Rattle.rules.specs.Opening.{stage_one, lesser as lesser_of, cross as crossed, turned, stages, opened_at, opened};
ghost use Rattle.rules.specs.declared.order.Side.TheVariants.{Bid, Offer};
ghost use Rattle.rules.specs.declared.order.Kind.TheVariants.{OnOpen};
ghost use Rattle.table.specs.Fits.{price_fits};
ghost use Rattle.table.specs.Tables.{open_orders, tape_lines};
ghost use Rattle.matching.specs.Answers.{answer_of};
ghost use Rattle.matching.specs.Steps.{step_of};

use crate::floor::Floor;
use crate::level::lots_at;
use crate::pricing::{price, volume};
use crate::span::Span;
use policy::Policy;
use rules::calls::OpeningAnswer;
use rules::order::{Kind, Level, Side};
use rules::tape::{TapeLine, Terms};
use table::table::{Prices, Table};
use table::tape::Tape;

// The lots that both sides of a level can trade.
fn lesser(table: &Table, kind: Kind) -> u32
    ensures { result ≡ lesser_of kind (open_orders table.now) }
{
    let bids = Level {
        side: Side::Bid,
        kind,
    };
    let offers = Level {
        side: Side::Offer,
        kind,
    };
    lots_at(table, bids).min(lots_at(table, offers))
}

// Whether a line says that lots are bought.
fn is_bought(line: TapeLine) -> bool
    ensures { result ≡ is Bid line.side }
{
    line.side == Side::Bid
}

// The lots bought by the lines of a tape.
fn bought(tape: &Tape) -> u32
    requires { lined (λ n s. is Bid s) (tape_lines tape.now) < 2 ^ 32 }
    ensures { result ≡ lined (λ n s. is Bid s) (tape_lines tape.now) }
{
    tape.lines()
        .iter()
        .filter(|line| is_bought(**line))
        .map(|line| line.lots)
        .sum()
}

// Withdraws the On-Open orders, and answers their lots, of bids and of offers.
fn withdraw_on_open(table: &mut Table) -> (u32, u32)
    ensures orders { open_orders table.new ≡ filter (λ o. not (on_open o)) (open_orders table.old) }
    ensures lots { result ≡ pair_of on_open (open_orders table.old) }
{
    table.withdraw_on_open()
}

impl Floor {
    // Stage one: the volume's lots of limit bids and of limit offers trade at the price, the better price first.
    #[tactic(auto, using(crate::proofs::Stages::prices_within))]
    fn trade_limits<P: Policy>(&mut self, policy: &P, lots: u32, price: u32)
        requires { tape_lines self.old.tape ≡ [] }
        ensures exact { step_of self.new ≡ stage_one (P.Policy.rule policy.now) price lots (step_of self.old) }
        ensures lines { length (tape_lines self.new.tape) + (length (level Bid OnOpen (open_orders self.new.table)) + length (level Offer OnOpen (open_orders self.new.table))) ≤ 256 }
    {
        let terms = Terms::Opening(price);
        let bids = Span {
            side: Side::Bid,
            prices: Prices::Any,
        };
        let offers = Span {
            side: Side::Offer,
            prices: Prices::Any,
        };
        self.walk(policy, terms, bids, lots);
        self.walk(policy, terms, offers, lots);
    }

    // The bids and the offers of one level trade at the price, as many lots as the lesser side holds.
    fn cross<P: Policy>(&mut self, policy: &P, price: u32, kind: Kind)
        requires { length (tape_lines self.old.tape) ≤ 256 }
        ensures exact { step_of self.new ≡ crossed (P.Policy.rule policy.now) price kind (step_of self.old) }
        ensures lines { length (tape_lines self.new.tape) ≤ length (tape_lines self.old.tape) + (length (level Bid kind (open_orders self.old.table)) + length (level Offer kind (open_orders self.old.table))) }
    {
        let bids = Level {
            side: Side::Bid,
            kind,
        };
        let offers = Level {
            side: Side::Offer,
            kind,
        };
        let lots = lesser(&self.table, kind);
        self.trade_level(policy, price, bids, lots);
        self.trade_level(policy, price, offers, lots);
    }

    // Stage two: the On-Open orders trade with each other, and what is left of them becomes limit orders at the price.
    // That the price is one an order may have is asked here, below and where the table turns: a price with that in its
    // type would be no `u32`, which the order's kind holds.
    fn trade_on_open<P: Policy>(&mut self, policy: &P, price: u32)
        requires within { price_fits price ≡ true }
        requires room { length (tape_lines self.old.tape) ≤ 256 }
        ensures exact { step_of self.new ≡ turned price (crossed (P.Policy.rule policy.now) price OnOpen (step_of self.old)) }
        ensures lines { length (tape_lines self.new.tape) ≤ length (tape_lines self.old.tape) + (length (level Bid OnOpen (open_orders self.old.table)) + length (level Offer OnOpen (open_orders self.old.table))) }
    {
        self.cross(policy, price, Kind::OnOpen);
        self.table.turn(price);
    }

    // The three stages: limit orders with each other; On-Open orders with each other; and what is left of the On-Open
    // orders, as limit orders at the price, with the limit orders there.
    fn trade_opening<P: Policy>(&mut self, policy: &P, lots: u32, price: u32)
        requires empty { tape_lines self.old.tape ≡ [] }
        requires within { price_fits price ≡ true }
        ensures { step_of self.new ≡ stages (P.Policy.rule policy.now) price lots (open_orders self.old.table) }
    {
        self.trade_limits(policy, lots, price);
        self.trade_on_open(policy, price);
        self.cross(policy, price, Kind::Limit(price));
    }

    // Opens a book of the volume, on a new tape: with a price its orders trade, without one its On-Open orders are
    // withdrawn.
    fn open_at<P: Policy>(&mut self, policy: &P, lots: u32, price: Option<u32>) -> OpeningAnswer
        requires volume { lots ≡ volume_of (open_orders self.old.table) }
        requires price { price ≡ price_at lots (open_orders self.old.table) }
        ensures orders { open_orders self.new.table ≡ (opened_at (P.Policy.rule policy.now) (open_orders self.old.table) lots price).orders }
        ensures written { tape_lines self.new.tape ≡ (opened_at (P.Policy.rule policy.now) (open_orders self.old.table) lots price).tape }
        ensures answer { result ≡ answer_of (opened_at (P.Policy.rule policy.now) (open_orders self.old.table) lots price) }
    {
        self.tape.clear();
        match price {
            Some(p) => {
                self.trade_opening(policy, lots, p);
                OpeningAnswer {
                    volume: lots,
                    total: bought(&self.tape),
                    withdrawn: 0,
                    price,
                }
            }
            None => {
                let (bids, offers) = withdraw_on_open(&mut self.table);
                OpeningAnswer {
                    volume: lots,
                    total: 0,
                    withdrawn: bids + offers,
                    price,
                }
            }
        }
    }

    // Opens a book.
    pub fn open_orders<P: Policy>(&mut self, policy: &P) -> OpeningAnswer
        ensures orders { open_orders self.new.table ≡ (opened (P.Policy.rule policy.now) (open_orders self.old.table)).orders }
        ensures written { tape_lines self.new.tape ≡ (opened (P.Policy.rule policy.now) (open_orders self.old.table)).tape }
        ensures answer { result ≡ answer_of (opened (P.Policy.rule policy.now) (open_orders self.old.table)) }
    {
        let lots = volume(&self.table);
        let found = price(&self.table, lots);
        self.open_at(policy, lots, found)
    }
}
