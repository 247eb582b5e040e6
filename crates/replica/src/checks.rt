// What is asked of a slip under a register, and the waiting slip that it becomes.
ghost use Rattle.std.specs.Prelude.{◌≡◌, true, false, not, ◌≤◌};
ghost use Rattle.texts.specs.Bounds.{most_deps};
ghost use Rattle.texts.specs.Answers.{answer_number, answer_of};
ghost use Rattle.texts.specs.Register.{register_answer, position};
ghost use Rattle.texts.specs.Slip.{slip_layout, deps_of};
ghost use Rattle.replica.specs.Checks.{range?, shop?, rising, check_rows};
ghost use Rattle.replica.specs.Slips.{waiting_of};
ghost use Rattle.replica.specs.Inside.{dep_places};

use crate::record::Waiting;
use texts::bounds::SHOPS;
use texts::{Refusal, Register, Slip};

// A slip under a register, with the positions of its codes there: each code is looked up once. The positions of the dependencies are a list
// beside the slip's own, which has codes and stays as it came; its places that are not in use are 0.
#[derive(Clone, Copy)]
pub(crate) struct PlacedSlip<'a> {
    pub(crate) register: &'a Register,
    pub(crate) slip: &'a Slip,
    pub(crate) payer: usize,
    pub(crate) payee: usize,
    pub(crate) deps: [usize; SHOPS],
    ghost legal_register: { register_answer register.now ≡ 0 },
    ghost legal_slip: { slip_layout.legal slip.now ≡ true },
    ghost few_deps: { slip.now.count ≤ most_deps },
    ghost payer_place: { payer ≡ position register.now slip.now.payer },
    ghost payee_place: { payee ≡ position register.now slip.now.payee },
    ghost dep_places: { deps ≡ dep_places register.now slip.now },
}

impl<'a> PlacedSlip<'a> {
    pub(crate) fn new(register: &'a Register, slip: &'a Slip) -> Self
        requires register { register_answer register.now ≡ 0 }
        requires slip { slip_layout.legal slip.now ≡ true }
        ensures register { result.register.now ≡ register.now }
        ensures slip { result.slip.now ≡ slip.now }
    {
        let payer = register.position(slip.payer);
        let payee = register.position(slip.payee);
        let mut deps = [0; SHOPS];
        for (i, dep) in slip.deps[..slip.count].iter().enumerate() {
            deps[i] = register.position(dep.code);
        }
        PlacedSlip {
            register,
            slip,
            payer,
            payee,
            deps,
        }
    }

    // Is the slip's number, its amount or a dependency's number 0.
    fn has_zero(&self) -> bool
        ensures { result ≡ range? self.now.slip.now }
    {
        let slip = self.slip;
        let deps = &slip.deps[..slip.count];
        slip.number == 0 || slip.amount == 0 || deps.iter().any(|dep| dep.number == 0)
    }

    // Are the payer, the payee and the dependencies all in the register.
    fn is_listed(&self) -> bool
        ensures { result ≡ not (shop? self.now.register.now self.now.slip.now) }
    {
        let shops = self.register.count;
        let deps = &self.deps[..self.slip.count];
        self.payer < shops && self.payee < shops && deps.iter().all(|&at| at < shops)
    }

    // Do the dependencies stand in strictly rising position, and none names the payer.
    fn deps_rise(&self) -> bool
        ensures { result ≡ rising self.now.register.now self.now.payer 0 (deps_of self.now.slip.now) }
    {
        let mut least = 0;
        for &at in &self.deps[..self.slip.count] {
            if at < least || at == self.payer {
                return false;
            }
            least = at + 1;
        }
        true
    }

    // The checks 4, 2, 3 and 5.
    pub(crate) fn answer(&self) -> Result<(), Refusal>
        ensures { answer_number result ≡ answer_of (check_rows self.now.register.now self.now.slip.now) }
    {
        if self.has_zero() {
            return Err(Refusal::Range);
        }
        if !self.is_listed() {
            return Err(Refusal::Shop);
        }
        if self.slip.payee.same(self.slip.payer) {
            return Err(Refusal::Oneself);
        }
        if !self.deps_rise() {
            return Err(Refusal::Deps);
        }
        Ok(())
    }

    // The slip as it waits: from the last dependency to the first, each number goes to its shop's place.
    pub(crate) fn waiting(&self) -> Waiting
        requires { shop? self.now.register.now self.now.slip.now ≡ false }
        ensures { result ≡ waiting_of self.now.register.now self.now.slip.now }
    {
        let slip = self.slip;
        let mut needs = [0; SHOPS];
        for i in (0..slip.count).rev() {
            needs[self.deps[i]] = slip.deps[i].number;
        }
        Waiting {
            payer: self.payer,
            payee: self.payee,
            number: slip.number,
            amount: slip.amount,
            needs,
        }
    }
}
