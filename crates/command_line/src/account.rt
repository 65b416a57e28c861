// The account of a settlement: what it brings everybody.
use crate::files_in::{operand_at, read_operand};
use crate::refusals::{refuse_bytes, tell_why};
use crate::sheet::unpack_ticket;
use answer_texts::AccountLines;
use checks::{Document, Refusal};
use commands::{Asked, Status};
use files::{Told, print};
use printing::Refused;

pub(crate) fn account(rt: &HostRuntime, asked: Asked) -> Result<Status, Told> {
    let mut file = files::ticket_bytes();
    let ticket = read_operand(rt, asked, 0, &mut file)?;
    let mut list = numbers::ticket_list();
    let terms = unpack_ticket(rt, asked, ticket, &mut list)?;
    let growers = tables::growers(terms);
    let pilots = tables::pilots(terms);
    let mut bytes = files::settlement_bytes();
    let settlement = read_operand(rt, asked, 1, &mut bytes)?;
    match accounts::account(ticket, settlement) {
        Ok(account) => {
            let amounts = account.list;
            let lines = AccountLines {
                amounts,
                growers,
                pilots,
            };
            print(rt, &lines)?;
            Ok(Status::Done)
        }
        Err(Refusal::NotSound) => {
            let why = Refusal::NotSound;
            print(rt, &Refused { why })?;
            tell_why(rt, operand_at(rt, asked, 1).bytes(), why);
            Ok(Status::NotSound)
        }
        Err(why) => {
            let document = Document::Settlement { growers, pilots };
            Err(refuse_bytes(rt, asked, 1, why, document, settlement))
        }
    }
}
