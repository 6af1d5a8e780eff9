// The answers, as they are printed.
use combination::{Governing, GoverningRow};
use effects::{Load, LoadEffect};
use refusal::Refused;
use std::fmt;

// What a question is answered with, by its word.
#[derive(Drop)]
pub enum Answer {
    Whole(Result<i64, Refused<f64>>),
    Combine(Result<Governing, Refused<LoadEffect<Load>>>),
    Govern(Result<Governing, Refused<Load>>),
}

// A double by its bits; a NaN's cannot be read here.
#[derive(Drop)]
struct Bits(f64);

// A row that governs.
#[derive(Drop)]
struct Row(GoverningRow);

// The rows that govern.
#[derive(Drop)]
struct Rows(Governing);

// The key of a load on the sheet. A load is another crate's type, so that it can have no Display here.
fn key(load: Load) -> &'static str {
    match load {
        Load::Dead => "dead",
        Load::Live => "live",
        Load::Roof => "roof",
        Load::Snow => "snow",
        Load::Rain => "rain",
        Load::Wind => "wind",
        Load::Quake => "quake",
    }
}

impl fmt::Display for Bits {
    fn fmt<W: fmt::Write>(&self, f: &mut fmt::Formatter<W>) -> fmt::Result {
        if self.0.is_nan() {
            return write!(f, "nan");
        }
        let bits = self.0.to_bits();
        write!(f, "{bits:016x}")
    }
}

impl fmt::Display for Row {
    fn fmt<W: fmt::Write>(&self, f: &mut fmt::Formatter<W>) -> fmt::Result {
        write!(
            f,
            "{} row={} double={}",
            self.0.tenths,
            self.0.row,
            Bits(self.0.double)
        )
    }
}

impl fmt::Display for Rows {
    fn fmt<W: fmt::Write>(&self, f: &mut fmt::Formatter<W>) -> fmt::Result {
        write!(f, "max={} min={}", Row(self.0.greatest), Row(self.0.least))
    }
}

impl fmt::Display for Answer {
    fn fmt<W: fmt::Write>(&self, f: &mut fmt::Formatter<W>) -> fmt::Result {
        match *self {
            Answer::Whole(Ok(n)) => write!(f, "whole={n}"),
            Answer::Whole(Err(Refused { refusal, back })) => {
                write!(f, "refused={} double={}", refusal.number(), Bits(back))
            }
            Answer::Combine(Ok(governing)) | Answer::Govern(Ok(governing)) => write!(
                f,
                "{}",
                Rows(governing)
            ),
            Answer::Combine(Err(Refused { refusal, back })) => {
                write!(
                    f,
                    "refused={} effect={} double={}",
                    refusal.number(),
                    key(back.load),
                    Bits(back.double)
                )
            }
            Answer::Govern(Err(Refused { refusal, back })) => {
                write!(f, "refused={} effect={}", refusal.number(), key(back))
            }
        }
    }
}
