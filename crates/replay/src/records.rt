// The calls of `judge`, `agreement` and `record`.
use crate::parts;
use crate::stop::Stop;

// Any words: the verdicts of the record that they are.
pub fn judge(rt: &impl Print, words: &[u32]) -> Result<(), Stop> {
    let [balance, conductivity, ratio, nitrogen] = judge::judge(words)?.numbers();
    print!(rt; "judged {balance} {conductivity}")?;
    println!(rt; " {ratio} {nitrogen}")?;
    Ok(())
}

// A count, that many words, and the rest: whether the two records agree.
pub fn agree(rt: &impl Print, words: &[u32]) -> Result<(), Stop> {
    let (first, second) = parts::two(words)?;
    if agreement::agree(first, second)? {
        println!(rt; "agree")?;
    } else {
        println!(rt; "differ")?;
    }
    Ok(())
}

// An element, and any words: whether the record that they are has a reading of it.
// The words for yes and no are this program's own, so no `Display` has them.
pub fn has_reading(rt: &impl Print, words: &[u32]) -> Result<(), Stop> {
    let (element, words) = words.split_first().ok_or(Stop::Malformed)?;
    if record::has_reading(record::test(words), *element) {
        println!(rt; "present")?;
    } else {
        println!(rt; "absent")?;
    }
    Ok(())
}

// A count, that many words, and the rest: whether the two records are of one sample.
pub fn same_sample(rt: &impl Print, words: &[u32]) -> Result<(), Stop> {
    let (first, second) = parts::two(words)?;
    if record::same_sample(record::test(first), record::test(second)) {
        println!(rt; "same")?;
    } else {
        println!(rt; "other")?;
    }
    Ok(())
}
