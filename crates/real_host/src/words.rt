//! The words that the program is started with.

use std::env::{Env, FillError};
use std::io::ErrorKind;
use std::{env, io};

// The arguments from the first on: the program's name may be any bytes, and is not looked at.
#[derive(Drop)]
struct Operands<'a> {
    rt: &'a HostRuntime,
}

impl<'a> Env for Operands<'a> {
    fn arg(&self, i: usize, buf: &mut [u8]) -> Result<usize, FillError> {
        self.rt.arg(i.saturating_add(1), buf)
    }

    fn var(&self, name: &str, buf: &mut [u8]) -> Result<usize, FillError> {
        self.rt.var(name, buf)
    }

    fn var_at(&self, i: usize, buf: &mut [u8]) -> Result<usize, FillError> {
        self.rt.var_at(i, buf)
    }
}

/// The words after the program's name; None where memory was refused for them. A word that is no UTF-8 is no operand of any command, so words
/// with one are answered as no words are: by the usage line.
pub fn words_of(rt: &HostRuntime) -> Option<Vec<String>> {
    let alloc = rt.alloc();
    match env::args(&(Operands { rt }, alloc)) {
        Ok(args) => args.collect::<Vec<String>>(alloc).ok(),
        Err(fault) if fault.kind() == ErrorKind::InvalidData => Some(Vec::new(alloc)),
        Err(_) => None,
    }
}
