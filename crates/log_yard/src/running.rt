ghost use Rattle.std.specs.Prelude.{◌≡◌, min, length, take, drop};
ghost use Rattle.log_yard.specs.Tells.{Performs, ObeysAll};

use crate::{Answer, Refusal, Yard};
use logs::{Call, Log, Rest, Size, Tag};
use ordered::OrderedIndex;

impl<T: OrderedIndex<Tag, Rest>, S: OrderedIndex<Size, u8>> Yard<T, S> {
    // Does the call. Only a LIST writes into the page.
    pub fn perform(&mut self, call: &Call, page: &mut [Log]) -> Result<Answer, Refusal>
        ensures { Performs T.OrderedIndex S.OrderedIndex self.old call.entry.now result page.old page.new self.new }
    {
        match *call {
            Call::Arrive(tag, body) => self.arrive(tag, body),
            Call::Withdraw(tag) => self.withdraw(tag),
            Call::Call(species, diameter, length) => self.call(species, diameter, length),
            Call::Saw(tag) => self.saw(tag),
            Call::Back(tag) => self.back(tag),
            Call::Find(tag) => self.find(tag),
            Call::List(species, low, high) => self.list(species, low, high, page),
        }
    }

    // Does the calls one after another and notes each answer, as long as there is a place for it. Gives how many were done.
    pub fn run(
        &mut self,
        calls: &[Call],
        answers: &mut [Result<Answer, Refusal>],
        page: &mut [Log],
    ) -> usize
        ensures count { result ≡ min (length calls.now) (length answers.old) }
        ensures law { ObeysAll T.OrderedIndex S.OrderedIndex self.old (take result calls.now) (take result answers.new) page.old page.new self.new }
        ensures rest { drop result answers.new ≡ drop result answers.old }
    {
        let count = calls.len().min(answers.len());
        for (i, call) in calls[..count].iter().enumerate() {
            answers[i] = self.perform(call, page);
        }
        count
    }
}
