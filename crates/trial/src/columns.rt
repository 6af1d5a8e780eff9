// One column at a time, and the numbers entered since it was opened.
ghost use Rattle.column.specs.Column.{Reached};

use column::{Column, Line};
use error_bound::AfterList;
use figure::Working;
use refusal::Refusal;
use std::alloc::{AllocError, Global};

// The most numbers that are kept: those of 300 entries.
const ROOM: usize = 1200;

// The column, the code that was asked for last, and the numbers entered since, accepted or not.
#[derive(Drop)]
pub struct State {
    column: Column,
    code: u64,
    numbers: Vec<u64>,
    ghost reached: { ∥ Reached column ∥₁ },
}

impl State {
    // Before the first opening there is an interior column without lines.
    #[tactic(auto, unfolding(column::specs::Column::opened_as, column::specs::Column::opened_of), using(refusal::proofs::Said::number_positive))]
    pub fn new(alloc: Global) -> State {
        match Column::open(1) {
            Ok(column) => State {
                column,
                code: 1,
                numbers: Vec::new(alloc),
            },
            Err(_) => unreachable!(),
        }
    }

    // Opens a member; a refused one leaves the column.
    pub fn open(&mut self, code: u64) -> Result<(), Refusal> {
        self.code = code;
        self.numbers.clear();
        self.column = Column::open(code)?;
        Ok(())
    }

    // Keeps the numbers of an entry while there is room.
    pub fn keep(&mut self, line: Line) -> Result<(), AllocError> {
        if self.numbers.len() < ROOM {
            let numbers = [line.floor, line.class, line.load, line.area.0];
            self.numbers.extend_from_slice(&numbers)?;
        }
        Ok(())
    }

    // Enters a line.
    #[tactic(auto, using(column::proofs::Seen::reached_anyhow))]
    pub fn enter(&mut self, line: Line) -> Result<(), Refusal> {
        self.column.enter(line)
    }

    // Asks the column at a floor.
    #[tactic(auto, using(column::proofs::Seen::reached_anyhow))]
    pub fn ask(&self, floor: u64) -> Result<Working, Refusal> {
        figure::ask(self.column, floor)
    }

    // Asks at a floor after the whole list of numbers, of which the last few are left off.
    pub fn list(&self, floor: u64, off: u64) -> AfterList {
        let left = (self.numbers.len() as u64).saturating_sub(off) as usize;
        error_bound::figure_after(self.code, &self.numbers[..left], floor)
    }
}
