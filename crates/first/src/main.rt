//! Reads two words as currency codes.
#![tactic(auto)]

use std::io::Error;
use tinystr::{TinyAsciiStr, tinystr};

fn main(rt: HostRuntime) -> Result<(), Error> {
    let euro = tinystr!(3, "eur").unwrap().to_ascii_uppercase(); // proved to fit
    let too_long = TinyAsciiStr::<3>::try_from_str("euros");
    println!(rt; "{euro} {too_long:?}")
}
