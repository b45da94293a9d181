//! The works that the program can do.

use crate::group::Size;
use crate::{firsts, histories, packets, seeds, texts};
use std::alloc::{AllocError, Global};

/// What is done with a packet or a history.
#[derive(Clone, Copy)]
pub enum Work {
    /// SHA-256 of the body of an add that hands on 4,000 headers and 32 cards.
    DigestBody,
    /// The packet of this add read.
    ParseAdd,
    /// A history of these headers and cards built, row by row, and dropped.
    Push4000,
    /// A text judged over this history, to be taken.
    JudgeText,
    /// An add that hands on 1,984 headers and 31 cards judged by whom it adds, to be taken.
    JudgeHalf,
    /// An add that hands on 3,968 headers and 31 cards judged so.
    JudgeWhole,
    /// What is drawn for parts to 31 members.
    Draw31,
    /// The same drawn, and the body of an update with a part for each of them.
    Seeded31,
}

impl Work {
    /// The work of this name.
    pub fn named(name: &str) -> Option<Work> {
        match name {
            "digest-body" => Some(Work::DigestBody),
            "parse-add" => Some(Work::ParseAdd),
            "push-4000" => Some(Work::Push4000),
            "judge-text" => Some(Work::JudgeText),
            "judge-half" => Some(Work::JudgeHalf),
            "judge-whole" => Some(Work::JudgeWhole),
            "draw-31" => Some(Work::Draw31),
            "seeded-31" => Some(Work::Seeded31),
            _ => None,
        }
    }

    /// Prepares the work once, does it so many times, and gives a digest of what came of it.
    pub fn run(self, alloc: Global, count: u32) -> Result<[u8; 32], AllocError> {
        match self {
            Work::DigestBody => packets::digest(alloc, count),
            Work::ParseAdd => packets::parse(alloc, count),
            Work::Push4000 => histories::push(alloc, count),
            Work::JudgeText => texts::judge(alloc, count),
            Work::JudgeHalf => firsts::judge(alloc, Size::Half, count),
            Work::JudgeWhole => firsts::judge(alloc, Size::Whole, count),
            Work::Draw31 => seeds::draw(alloc, count),
            Work::Seeded31 => seeds::seed(alloc, count),
        }
    }
}
