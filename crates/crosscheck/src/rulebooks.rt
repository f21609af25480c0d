// Random orders of work on books under rulebooks that change from call to call, so that members recede.
use crate::both::{Life, read_both};
use crate::dice::Dice;
use crate::engine::life_text;
use crate::requests::{call_of, random_requests};
use crate::shapes::{Scale, each_network};
use crate::tally::Tally;
use book::{Answer, Book, Call, Task};
use network::Draft;
use rules::{
    ClassTable, Classes, Dual, EqualAwards, Jefferson, Priority, RingRulebook, UnitRule,
    ring_rulebook,
};
use second::{Network, Request, Rule, Rules};
use std::alloc::{AllocError, Global};

// The rulebooks of one network.
#[derive(Drop)]
struct Shelf {
    ring: RingRulebook,
    equal_awards: UnitRule<EqualAwards>,
    jefferson: UnitRule<Jefferson>,
    dual: Dual<UnitRule<EqualAwards>>,
    classes: Classes<UnitRule<Jefferson>>,
}

impl Shelf {
    fn of(draft: &Draft) -> Shelf {
        Shelf {
            ring: ring_rulebook(draft.figures()),
            equal_awards: UnitRule::new(EqualAwards),
            jefferson: UnitRule::new(Jefferson),
            dual: Dual::new(UnitRule::new(EqualAwards)),
            classes: Classes::new(UnitRule::new(Jefferson), ClassTable::of(draft.figures())),
        }
    }

    // Makes a call under the engine's rulebook with these rules. (A match and no `dyn`: a book is worked under a type that
    // is a `Rulebook`, and no crate but `rules` can make a `&dyn Rulebook` one.)
    fn perform(&self, book: &mut Book, rules: Rules, call: Call) -> Answer {
        match rules {
            Rules::Ring => book.perform(&self.ring, call),
            Rules::Only(Rule::Priority) => book.perform(&Priority, call),
            Rules::Only(Rule::EqualAwards) => book.perform(&self.equal_awards, call),
            Rules::Only(Rule::Jefferson) => book.perform(&self.jefferson, call),
            Rules::Only(Rule::DualOfEqualAwards) => book.perform(&self.dual, call),
            Rules::Only(Rule::ClassesOverJefferson) => book.perform(&self.classes, call),
        }
    }
}

fn random_rules(dice: &mut Dice) -> Rules {
    match dice.between(1, 6) {
        1 => Rules::Ring,
        2 => Rules::Only(Rule::Priority),
        3 => Rules::Only(Rule::EqualAwards),
        4 => Rules::Only(Rule::Jefferson),
        5 => Rules::Only(Rule::DualOfEqualAwards),
        _ => Rules::Only(Rule::ClassesOverJefferson),
    }
}

// A request, and the rules under which it is performed.
#[derive(Clone, Copy)]
struct Step {
    request: Request,
    rules: Rules,
}

// Steps in a network of n members.
fn random_steps(heap: Global, dice: &mut Dice, n: u8) -> Result<Vec<Step>, AllocError> {
    let requests = random_requests(heap, dice, n)?;
    requests
        .iter()
        .map(|request| Step {
            request: *request,
            rules: random_rules(dice),
        })
        .collect(heap)
}

fn engine_text(heap: Global, draft: Draft, steps: &[Step]) -> Result<String, AllocError> {
    let shelf = Shelf::of(&draft);
    let mut book = Book::open(draft);
    let tasks: Vec<Task> = steps
        .iter()
        .map(|step| {
            let call = call_of(step.request);
            let answer = Some(shelf.perform(&mut book, step.rules, call));
            Task { call, answer }
        })
        .collect(heap)?;
    let sheet = book.close(&shelf.ring);
    life_text(heap, tasks.as_slice(), &sheet)
}

// What the second implementation has of such a life.
fn expected_text(heap: Global, network: &Network, steps: &[Step]) -> Result<String, AllocError> {
    let mut life = Life::open(heap, network);
    for step in steps {
        let queues = step.rules.queues(heap, network)?;
        life.perform(queues.as_slice(), step.request)?;
    }
    let queues = Rules::Ring.queues(heap, network)?;
    life.close(heap, queues.as_slice(), None)
}

fn compare_on(dice: &mut Dice, tally: &mut Tally, file: &[u8]) -> Result<(), AllocError> {
    let Some((network, draft)) = read_both(tally, file) else {
        return Ok(());
    };
    let heap = tally.heap;
    let steps = random_steps(heap, dice, draft.count().get())?;
    let text = engine_text(heap, draft, steps.as_slice());
    let expected = expected_text(heap, &network, steps.as_slice());
    tally.compare(file, text, expected);
    Ok(())
}

pub fn compare_changing(dice: &mut Dice, tally: &mut Tally, count: u32) -> Result<(), AllocError> {
    let scale = |dice: &mut Dice| Scale {
        n: dice.byte(2, 6),
        richest: 15,
        largest: 8,
    };
    each_network(tally.heap, dice, count, scale, |dice, file| {
        compare_on(dice, tally, file?.as_slice())
    })
}
