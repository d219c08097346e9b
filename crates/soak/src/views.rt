//! Views that are held while the store goes on, and compared with the plain map as it was when they were taken.
ghost use Rattle.zorder.specs.Region.{IsBox};
ghost use Rattle.soak.specs.Whole.{IsWhole};

use crate::dice::Dice;
use crate::judge::Judge;
use crate::soak::{LAST, SoakPass};
use crate::trouble::Trouble;
use disk_trait::LogDisk;
use index_layer::Index;
use index_view::View;
use plain_list::PlacedList;
use sessions::{Start, Store};
use std::alloc::{AllocError, Global};
use std::sync::Wait;
use store_client::Client;
use zorder::{Memory, Point, Region};

// A view is held until it is this many calls old.
const OLD: u64 = 10_000;

// How many objects are wanted of those nearest to a point.
const NEAREST: u32 = 16;

/// A view of a store that nobody else calls now, and the pass.
pub fn view_of<I: Index, D: LogDisk, O: Start, R: Wait>(
    rt: &R,
    alloc: Global,
    store: &Store<I, D, O>,
    pass: SoakPass<I, D, O>,
) -> (Option<View<I>>, SoakPass<I, D, O>)
    requires { IsWhole store.now pass }
    ensures { IsWhole store.now result.1 }
{
    let mut client = Client::new(store, alloc, pass, LAST);
    let view = client.view(rt).ok();
    (view, client.into_pass())
}

// A box and a point.
#[derive(Clone, Copy)]
struct Question {
    region: Region,
    at: Point,
}

impl Question {
    // The question to the view after so many calls.
    fn of(calls: u64) -> Question
        ensures { IsBox result.region }
    {
        let mut dice = Dice::new(calls, LAST);
        let (lo, at) = (dice.place(), dice.place());
        Question {
            region: Region {
                lo,
                hi: Point {
                    x: lo.x.saturating_add(dice.any()),
                    y: lo.y.saturating_add(dice.any()),
                },
            },
            at,
        }
    }
}

// What is to be seen in a view, or what was.
#[derive(Drop)]
struct Sight {
    len: u64,
    count: u64,
    within: PlacedList,
    nearest: PlacedList,
}

impl Sight {
    // What the plain map has.
    fn in_map(judge: &Judge, question: &Question) -> Result<Sight, AllocError> {
        let within = judge.all_within(&question.region)?;
        Ok(Sight {
            len: judge.kept.len() as u64,
            count: within.as_slice().len() as u64,
            within,
            nearest: judge.nearest(question.at, NEAREST as usize)?,
        })
    }

    // What the view has.
    fn in_view<I: Index>(
        alloc: Global,
        view: &View<I>,
        question: &Question,
    ) -> Result<Sight, Memory>
        requires { IsBox question.now.region }
    {
        Ok(Sight {
            len: view.len(),
            count: view.count(&question.region),
            within: view.within(alloc, &question.region)?,
            nearest: view.nearest(alloc, question.at, NEAREST)?,
        })
    }

    fn is_same(&self, other: &Sight) -> bool {
        let is_as_long = self.len == other.len && self.count == other.count;
        is_as_long
            && self.within.as_slice() == other.within.as_slice()
            && self.nearest.as_slice() == other.nearest.as_slice()
    }
}

// A view, after how many calls of the run it was taken, and what is to be seen in it.
#[derive(Drop)]
struct HeldView<I: Index> {
    view: View<I>,
    calls: u64,
    sight: Sight,
}

impl<I: Index> HeldView<I> {
    // Whether the view has what it is to have.
    fn is_right(&self, alloc: Global) -> Result<bool, Memory> {
        let seen = Sight::in_view(alloc, &self.view, &Question::of(self.calls))?;
        Ok(self.sight.is_same(&seen))
    }
}

/// The views that are held.
#[derive(Drop)]
pub struct Views<I: Index> {
    alloc: Global,
    held: Vec<HeldView<I>>,
}

impl<I: Index> Views<I> {
    pub fn new(alloc: Global) -> Views<I> {
        Views {
            alloc,
            held: Vec::new(alloc),
        }
    }

    /// Takes the view at the end of a round that was checked, and compares all that are held. Then it drops those that
    /// are old enough.
    pub fn look(&mut self, view: Option<View<I>>, judge: &mut Judge) -> Result<(), Trouble> {
        let Some(view) = view else {
            return Err(Trouble::Memory);
        };
        let (found, should) = (view.place(), judge.place);
        if found != should {
            return Err(Trouble::Place { found, should });
        }
        self.hold(view, judge)?;
        self.compare(judge)?;
        let calls = judge.calls;
        self.held
            .retain(|held| calls.saturating_sub(held.calls) < OLD);
        Ok(())
    }

    fn hold(&mut self, view: View<I>, judge: &Judge) -> Result<(), AllocError> {
        let calls = judge.calls;
        let sight = Sight::in_map(judge, &Question::of(calls))?;
        self.held.push(HeldView { view, calls, sight })?;
        Ok(())
    }

    fn compare(&self, judge: &mut Judge) -> Result<(), Trouble> {
        for held in &self.held {
            let is_right = held.is_right(self.alloc)?;
            if !is_right {
                return Err(Trouble::View { calls: held.calls });
            }
            judge.views = judge.views.saturating_add(1);
            judge.oldest = judge.oldest.max(judge.calls.saturating_sub(held.calls));
        }
        Ok(())
    }
}
