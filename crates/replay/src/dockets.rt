// The calls of `docket`.
use crate::lent;
use crate::stop::Stop;
use docket::{Docket, Offered};

// An offer that was made: 0 or the number of its refusal, the state's place in document 01's order, and the count.
fn print_offer(rt: &impl Print, offered: Offered) -> Result<(), Stop> {
    let answer = match offered.answer {
        Ok(()) => 0,
        Err(why) => why.number(),
    };
    let state = offered.docket.state.number();
    let count = offered.docket.count;
    print!(rt; " {answer} {state}")?;
    print!(rt; " {count}")?;
    Ok(())
}

// Counts, each with that many words after it: offers to a fresh docket, in turn. One that runs past the end is offered as far as it
// goes.
pub fn offers(rt: &impl Print, words: &[u32]) -> Result<(), Stop> {
    print!(rt; "offers")?;
    let mut docket = docket::fresh();
    let mut rest = words;
    while let Some((count, after)) = rest.split_first() {
        let end = after.len().min(*count as usize);
        let (record, next) = after.split_at(end);
        let offered = docket::offer(docket, record);
        print_offer(rt, offered)?;
        docket = offered.docket;
        rest = next;
    }
    println!(rt; "")?;
    Ok(())
}

// A fresh docket after records one after another. A rest that is no whole record is offered as it is.
fn after_all(words: &[u32]) -> Docket {
    let mut docket = docket::fresh();
    for record in words.chunks(record::WORDS) {
        docket = docket::offer(docket, record).docket;
    }
    docket
}

// Records one after another: the fresh docket after all of them, with the record that it holds if it took any.
pub fn follow(rt: &impl Print, words: &[u32]) -> Result<(), Stop> {
    let after = after_all(words);
    let state = after.state.number();
    let count = after.count;
    print!(rt; "followed {state} {count}")?;
    if count == 0 {
        println!(rt; "")?;
        return Ok(());
    }
    lent::print_all(rt, &after.held)
}
