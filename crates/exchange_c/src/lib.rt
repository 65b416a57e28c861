// The exchange for programs in C: the proved operations under plain names, each answering one number.
// A slice is a pointer and a length to C. `include/hours_exchange.h` declares these functions.
#![tactic(auto)]

mod meanings; // meanings.rt: what C asks the text of
mod replies; // replies.rt: the number of a reply
mod settlements; // settlements.rt: settlements by growers and pilots

ghost use Rattle.std.specs.Prelude.{◌≡◌, length, Ok};
ghost use Rattle.reader.specs.Answer.{unpacked, packed, settlement_read, settlement_packed, reply, kept};
ghost use Rattle.marker.specs.Marked.{marked_values};
ghost use Rattle.settler.specs.Settled.{Settled};
ghost use Rattle.sheets.specs.Sheeted.{Sheeted};
ghost use Rattle.accounts.specs.Accounted.{account_outcome};
ghost use Rattle.windows.specs.Narrowed.{new_ticket_of};
ghost use Rattle.market_lists.specs.Lent.{OpenedIn, CalledIn, WrittenFrom};
ghost use Rattle.exchange_c.specs.Replies.{reply_number, NumberOf};
ghost use Rattle.exchange_c.specs.Settlements.{of_ticket};
ghost use Rattle.exchange_c.specs.Texts.{meaning_of};
ghost use Rattle.c_answers.specs.Marks.{mark_number, worth_number};
ghost use Rattle.texts.specs.Meanings.{telling_of};

use meanings::{byte_of, meaning_of};
use replies::reply_number;

// `reader::unpack`: the count of a ticket's numbers, or a refusal.
#[tactic(auto, using(crate::proofs::ReplyLaws::unpack_small))]
#[unsafe(no_mangle)]
pub extern "C" fn exchange_unpack(ticket: &[u8], list: &mut [u16]) -> u32
    ensures value { result ≡ reply_number (reply (length list.old) (unpacked ticket.now)) }
    ensures list_after { list.new ≡ kept list.old (unpacked ticket.now) }
{
    reply_number(reader::unpack(ticket, list))
}

// `reader::pack`: the length of a ticket in bytes, or a refusal.
#[tactic(auto, using(crate::proofs::ReplyLaws::pack_small))]
#[unsafe(no_mangle)]
pub extern "C" fn exchange_pack(list: &[u16], ticket: &mut [u8]) -> u32
    ensures value { result ≡ reply_number (reply (length ticket.old) (packed list.now)) }
    ensures ticket_after { ticket.new ≡ kept ticket.old (packed list.now) }
{
    reply_number(reader::pack(list, ticket))
}

// `reader::read_settlement`: the count of a settlement's numbers, or a refusal; 15 first where growers or pilots are more than 16.
#[tactic(auto, using(crate::proofs::SettlementLaws::read_small))]
#[unsafe(no_mangle)]
pub extern "C" fn exchange_read_settlement(
    settlement: &[u8],
    growers: usize,
    pilots: usize,
    list: &mut [u16],
) -> u32
    ensures value { result ≡ reply_number (reply (length list.old) (of_ticket growers pilots (settlement_read growers pilots settlement.now))) }
    ensures list_after { list.new ≡ kept list.old (of_ticket growers pilots (settlement_read growers pilots settlement.now)) }
{
    reply_number(settlements::read(settlement, growers, pilots, list))
}

// `reader::write_settlement`: the length of a settlement in bytes, or a refusal; 15 first where growers or pilots are more than 16.
#[tactic(auto, using(crate::proofs::SettlementLaws::write_small))]
#[unsafe(no_mangle)]
pub extern "C" fn exchange_write_settlement(
    list: &[u16],
    growers: usize,
    pilots: usize,
    settlement: &mut [u8],
) -> u32
    ensures value { result ≡ reply_number (reply (length settlement.old) (of_ticket growers pilots (settlement_packed growers pilots list.now))) }
    ensures settlement_after { settlement.new ≡ kept settlement.old (of_ticket growers pilots (settlement_packed growers pilots list.now)) }
{
    reply_number(settlements::write(list, growers, pilots, settlement))
}

// `settler::settle`: the length of a sound settlement in bytes, or a refusal.
#[tactic(auto, using(crate::proofs::ReplyLaws::settle_small))]
#[unsafe(no_mangle)]
pub extern "C" fn exchange_settle(ticket: &[u8], settlement: &mut [u8]) -> u32
    ensures { NumberOf (Settled ticket.now settlement.old settlement.new) result }
{
    reply_number(settler::settle(ticket, settlement))
}

// `sheets::sheet`: the length of a ticket's sheet in bytes, or the refusal of a buffer that is too short.
#[tactic(auto, using(crate::proofs::ReplyLaws::sheet_small))]
#[unsafe(no_mangle)]
pub extern "C" fn exchange_sheet(ticket: &[u8], text: &mut [u8]) -> u32
    ensures { NumberOf (Sheeted (unpacked ticket.now) text.old text.new) result }
{
    reply_number(sheets::sheet(ticket, text))
}

// `marker::mark`: the verdict on a settlement with its places and count, or a refusal.
#[unsafe(no_mangle)]
pub extern "C" fn exchange_mark(ticket: &[u8], settlement: &[u8]) -> u64
    ensures { result ≡ mark_number (marked_values ticket.now settlement.now) }
{
    c_answers::mark_number(ticket, settlement)
}

// `marker::mark`: the worth that is given with the verdict on a settlement, or a refusal.
#[unsafe(no_mangle)]
pub extern "C" fn exchange_worth(ticket: &[u8], settlement: &[u8]) -> u64
    ensures { result ≡ worth_number (marked_values ticket.now settlement.now) }
{
    c_answers::worth_number(ticket, settlement)
}

// `accounts::account`: how many numbers the account of a settlement lists, or a refusal; 10, the list is too short, comes last.
#[unsafe(no_mangle)]
pub extern "C" fn exchange_account(ticket: &[u8], settlement: &[u8], list: &mut [u32]) -> u32
    ensures value { result ≡ reply_number (reply (length list.old) (account_outcome ticket.now settlement.now)) }
    ensures list_after { list.new ≡ kept list.old (account_outcome ticket.now settlement.now) }
{
    reply_number(c_answers::lend_account(ticket, settlement, list))
}

// `windows::narrow`: the length of the new ticket in bytes, or a refusal; 10, the buffer is too short, comes last.
#[tactic(auto, using(crate::proofs::WindowLaws::windows_small))]
#[unsafe(no_mangle)]
pub extern "C" fn exchange_windows(ticket: &[u8], windows: &[u16], new_ticket: &mut [u8]) -> u32
    ensures value { result ≡ reply_number (reply (length new_ticket.old) (new_ticket_of ticket.now windows.now)) }
    ensures new_ticket_after { new_ticket.new ≡ kept new_ticket.old (new_ticket_of ticket.now windows.now) }
{
    reply_number(windows::narrow(ticket, windows, new_ticket))
}

// `market_lists::open`: how many numbers a market has in a list, or a refusal; 10, the list is too short, comes last.
#[unsafe(no_mangle)]
pub extern "C" fn exchange_open(ticket: &[u8], market: &mut [u16]) -> u32
    ensures { NumberOf (OpenedIn ticket.now market.old market.new) result }
{
    reply_number(market_lists::open(ticket, market))
}

// `market_lists::call`: as many, or the first refusal among the calls; 10, the list is too short, comes first.
#[unsafe(no_mangle)]
pub extern "C" fn exchange_call(market: &mut [u16], calls: &[u16]) -> u32
    ensures { NumberOf (CalledIn calls.now market.old market.new) result }
{
    reply_number(market_lists::call(market, calls))
}

// `market_lists::write_settlement`: the length of the settlement of a market in bytes, or a refusal.
#[tactic(auto, using(crate::proofs::MarketLaws::settlement_small))]
#[unsafe(no_mangle)]
pub extern "C" fn exchange_market_settlement(market: &[u16], settlement: &mut [u8]) -> u32
    ensures { NumberOf (WrittenFrom market.now settlement.old settlement.new) result }
{
    reply_number(market_lists::write_settlement(market, settlement))
}

// `texts::telling`: the length of the words of a refusal (`what` is 0) or of a verdict, or the refusal of a buffer that is too short.
#[unsafe(no_mangle)]
pub extern "C" fn exchange_text(what: u32, number: u32, text: &mut [u8]) -> u32
    ensures value { result ≡ reply_number (reply (length text.old) (Ok (telling_of (meaning_of what) number))) }
    ensures text_after { text.new ≡ kept text.old (Ok (telling_of (meaning_of what) number)) }
{
    reply_number(texts::telling(meaning_of(what), byte_of(number), text))
}
