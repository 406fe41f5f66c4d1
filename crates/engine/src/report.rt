// Reports as bytes: each kind is written behind those before it, in the lent buffer, which has room for it.
#![tactic(auto, using(std::proofs::lemmas::Grind::common_steps), unfolding(crate::specs::rules::Records::report_bytes, numbers::specs::SevenBit::bytes_of_all, numbers::specs::SevenBit::bytes_of, numbers::specs::SevenBit::groups, numbers::specs::Tests::pick))]

ghost use Rattle.std.specs.Prelude.{◌≡◌};
ghost use Rattle.engine.specs.rules.Reports as kinds;
ghost use Rattle.engine.specs.steps.Lent.{SameLoans, HasRoomFor, Reported};

use crate::Cause;
use crate::lent::LentVenue;
use numbers::write;

// The paper's number of a cause.
impl From<Cause> for u32 {
    ghost from_gives = { λ cause n. n ≡ kinds.cause_number cause };

    fn from(cause: Cause) -> u32 {
        match cause {
            Cause::AskedFor => 1,
            Cause::ImmediateOrCancel => 2,
            Cause::OptOut => 3,
            Cause::EndOfDay => 4,
            Cause::SameFirm => 5,
        }
    }
}

impl LentVenue<'_> {
    pub(crate) fn report_accepted(&mut self, id: u32, stamp: u32, price: u32)
        requires { HasRoomFor self.old (kinds.accepted id stamp price) }
        ensures same_loans { SameLoans self.old self.new }
        ensures reported { Reported self.old self.new (kinds.accepted id stamp price) }
    {
        let numbers = [1, u64::from(id), u64::from(stamp), u64::from(price)];
        self.end = write::put_numbers(self.buffer, self.end, &numbers);
    }

    pub(crate) fn report_executed(&mut self, buyer: u32, seller: u32, price: u32, shares: u32)
        requires { HasRoomFor self.old (kinds.executed (record { buyer = buyer; seller = seller; price = price; shares = shares })) }
        ensures same_loans { SameLoans self.old self.new }
        ensures reported { Reported self.old self.new (kinds.executed (record { buyer = buyer; seller = seller; price = price; shares = shares })) }
    {
        let numbers = [
            2,
            u64::from(buyer),
            u64::from(seller),
            u64::from(price),
            u64::from(shares),
        ];
        self.end = write::put_numbers(self.buffer, self.end, &numbers);
    }

    pub(crate) fn report_cancelled(&mut self, id: u32, shares: u32, cause: Cause)
        requires { HasRoomFor self.old (kinds.cancelled id shares (kinds.cause_number cause)) }
        ensures same_loans { SameLoans self.old self.new }
        ensures reported { Reported self.old self.new (kinds.cancelled id shares (kinds.cause_number cause)) }
    {
        let numbers = [
            3,
            u64::from(id),
            u64::from(shares),
            u64::from(u32::from(cause)),
        ];
        self.end = write::put_numbers(self.buffer, self.end, &numbers);
    }

    pub(crate) fn report_repriced(&mut self, id: u32, price: u32, stamp: u32)
        requires { HasRoomFor self.old (kinds.repriced id price stamp) }
        ensures same_loans { SameLoans self.old self.new }
        ensures reported { Reported self.old self.new (kinds.repriced id price stamp) }
    {
        let numbers = [4, u64::from(id), u64::from(price), u64::from(stamp)];
        self.end = write::put_numbers(self.buffer, self.end, &numbers);
    }

    pub(crate) fn report_restriction_starts(&mut self)
        requires { HasRoomFor self.old kinds.restriction_starts }
        ensures same_loans { SameLoans self.old self.new }
        ensures reported { Reported self.old self.new kinds.restriction_starts }
    {
        let numbers = [5];
        self.end = write::put_numbers(self.buffer, self.end, &numbers);
    }

    pub(crate) fn report_day_ended(&mut self, phase: u32)
        requires { HasRoomFor self.old (kinds.day_ended phase) }
        ensures same_loans { SameLoans self.old self.new }
        ensures reported { Reported self.old self.new (kinds.day_ended phase) }
    {
        let numbers = [6, u64::from(phase)];
        self.end = write::put_numbers(self.buffer, self.end, &numbers);
    }

    pub(crate) fn report_pause_triggered(&mut self, direction: u32, price: u32)
        requires { HasRoomFor self.old (kinds.pause_triggered direction price) }
        ensures same_loans { SameLoans self.old self.new }
        ensures reported { Reported self.old self.new (kinds.pause_triggered direction price) }
    {
        let numbers = [7, u64::from(direction), u64::from(price)];
        self.end = write::put_numbers(self.buffer, self.end, &numbers);
    }
}
