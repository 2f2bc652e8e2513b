//! Good files of any size.
use anyhow::Context;
use std::alloc::{AllocError, Global};
use std::str::FromStr;
use stepfiles::Mark;

/// How the rows of a table lead to one another.
#[derive(Clone, Copy)]
pub enum Shape {
    /// No row accepts, and all lead to row 0.
    Lost,
    /// Each row leads to the next, and the last, which accepts, to itself.
    Chain,
    /// Each row leads to the one before it, and row 0, which accepts, to itself: it takes the most passes.
    Back,
    /// Class c leads c + 1 rows on, round and round, and the rows of an even number accept.
    Ring,
}

/// A word that names no shape.
#[derive(Clone, Copy)]
pub struct UnknownShape;

impl FromStr for Shape {
    type Err = UnknownShape;

    fn from_str(name: &str) -> Result<Shape, UnknownShape> {
        match name {
            "lost" => Ok(Shape::Lost),
            "chain" => Ok(Shape::Chain),
            "back" => Ok(Shape::Back),
            "ring" => Ok(Shape::Ring),
            _ => Err(UnknownShape),
        }
    }
}

/// A table, and how many bytes of text come before it.
#[derive(Clone, Copy)]
pub struct Table {
    shape: Shape,
    rows: u16,
    classes: u8,
    text: u16,
}

impl Table {
    /// The table of a shape and of a size ROWS,CLASSES,TEXT.
    pub fn sized(shape: Shape, sizes: &str) -> anyhow::Result<Table> {
        let (rows, rest) = sizes.split_once(',').context("no class count")?;
        let (classes, text) = rest.split_once(',').context("no text length")?;
        Ok(Table {
            shape,
            rows: rows.parse::<u16>()?,
            classes: classes.parse::<u8>()?,
            text: text.parse::<u16>()?,
        })
    }

    /// All of a file but its length, with a text that counts up from 0.
    pub fn file(self, heap: Global) -> Result<Vec<u8>, AllocError> {
        let mut bytes = Vec::from_slice(heap, &[0, 0, 0, 0, 1, 2])?;
        bytes.extend_from_slice(&self.rows.to_be_bytes())?;
        bytes.push(self.classes)?;
        bytes.extend_from_slice(&self.text.to_be_bytes())?;
        for letter in 0..self.text {
            bytes.push((letter % 256) as u8)?;
        }
        for row in 0..self.rows {
            bytes.push(self.mark(row).number())?;
            for class in 0..self.classes {
                bytes.extend_from_slice(&self.target(row, class).to_be_bytes())?;
            }
        }
        Ok(bytes)
    }

    fn mark(self, row: u16) -> Mark {
        match self.shape {
            Shape::Lost => Mark::Lost,
            Shape::Chain if row.saturating_add(1) == self.rows => Mark::Settled,
            Shape::Back if row == 0 => Mark::Settled,
            Shape::Ring if row % 2 == 0 => Mark::Holds,
            Shape::Chain | Shape::Back | Shape::Ring => Mark::Open,
        }
    }

    fn target(self, row: u16, class: u8) -> u16 {
        match self.shape {
            Shape::Lost => 0,
            Shape::Chain => row.saturating_add(1).min(self.rows.saturating_sub(1)),
            Shape::Back => row.saturating_sub(1),
            Shape::Ring => {
                let on = u32::from(row) + u32::from(class) + 1;
                u16::try_from(on.checked_rem(u32::from(self.rows)).unwrap_or(0)).unwrap_or(0)
            }
        }
    }
}
