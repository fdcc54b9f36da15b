// The call of `refusal`.
use crate::stop::Stop;
use refusal::Refusal;

// The refusals in the order of the documents, from place 1.
const REFUSALS: [Refusal; 15] = [
    Refusal::RecordLength,
    Refusal::SampleNumber,
    Refusal::Kind,
    Refusal::Ph,
    Refusal::Conductivity,
    Refusal::Alkalinity,
    Refusal::Reading,
    Refusal::BatchLength,
    Refusal::Count,
    Refusal::Chart,
    Refusal::DocketClosed,
    Refusal::OtherSample,
    Refusal::OutputLength,
    Refusal::SetupDiffers,
    Refusal::JoinedCount,
];

// A place in the documents' list: the number of the refusal there.
pub fn number(rt: &impl Print, words: &[u32]) -> Result<(), Stop> {
    let [place] = *words else {
        return Err(Stop::Malformed);
    };
    let place = (place as usize).checked_sub(1).ok_or(Stop::Malformed)?;
    let why = *REFUSALS.get(place).ok_or(Stop::Malformed)?;
    let number = why.number();
    println!(rt; "number {number}")?;
    Ok(())
}
