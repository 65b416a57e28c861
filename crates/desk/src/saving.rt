// What is held, as files.
use checks::Refusal;
use files::Told;
use open_market::Market;

// The held ticket as bytes.
pub(crate) fn pack(market: Market, file: &mut [u8]) -> Result<usize, Refusal> {
    let ticket = market.ticket;
    reader::pack(tables::ticket_front(&ticket), file)
}

// Why nothing was saved: what the market holds is no document, which it never is, or what failed was told.
#[derive(Clone, Copy, Debug, PartialEq, Eq)]
pub(crate) struct Unsaved;

impl From<Refusal> for Unsaved {
    fn from(_why: Refusal) -> Unsaved {
        Unsaved
    }
}

impl From<Told> for Unsaved {
    fn from(_told: Told) -> Unsaved {
        Unsaved
    }
}

fn save_ticket(rt: &HostRuntime, market: Market, name: &[u8]) -> Result<(), Unsaved> {
    let mut file = files::ticket_bytes();
    let count = pack(market, &mut file)?;
    files::write_named(rt, name, ascii::front(&file, count))?;
    Ok(())
}

fn save_settlement(rt: &HostRuntime, market: Market, name: &[u8]) -> Result<(), Unsaved> {
    let mut file = files::settlement_bytes();
    let ticket = market.ticket;
    let settlement = market.settlement;
    let count = reader::write_settlement(
        tables::settlement_front(&settlement),
        tables::growers(&ticket),
        tables::pilots(&ticket),
        &mut file,
    )?;
    files::write_named(rt, name, ascii::front(&file, count))?;
    Ok(())
}

// Writes the ticket, and then the settlement: both are stored, or it fails.
pub(crate) fn save(
    rt: &HostRuntime,
    market: Market,
    ticket_name: &[u8],
    settlement_name: &[u8],
) -> Result<(), Unsaved> {
    save_ticket(rt, market, ticket_name)?;
    save_settlement(rt, market, settlement_name)
}
