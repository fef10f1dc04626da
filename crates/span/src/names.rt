// What layers, operations and spots are called.
ghost use Rattle.std.specs.Prelude.{Some};
ghost use Rattle.span.specs.Names.{layer_name, operation_name, spot_name};

use crate::fault::{Layer, Operation, Spot};
use std::fmt;

impl fmt::Display for Layer {
    ghost output = { λ l. Some (layer_name l) };

    fn fmt<W: fmt::Write>(&self, f: &mut fmt::Formatter<W>) -> fmt::Result {
        match self {
            Layer::Span => write!(f, "span"),
            Layer::Source => write!(f, "source"),
            Layer::Docket => write!(f, "docket"),
            Layer::Sheet => write!(f, "sheet"),
        }
    }
}

impl fmt::Display for Operation {
    ghost output = { λ o. Some (operation_name o) };

    fn fmt<W: fmt::Write>(&self, f: &mut fmt::Formatter<W>) -> fmt::Result {
        match self {
            Operation::Sum => write!(f, "sum"),
            Operation::Difference => write!(f, "difference"),
            Operation::Product => write!(f, "product"),
        }
    }
}

impl fmt::Display for Spot {
    ghost output = { λ s. Some (spot_name s) };

    fn fmt<W: fmt::Write>(&self, f: &mut fmt::Formatter<W>) -> fmt::Result {
        let Spot { part, row, column } = self;
        write!(f, "part {part}, row {row}, column {column}")
    }
}
