// An account copied into a list that C lends.
ghost use Rattle.std.specs.Prelude.{◌≡◌, length, ◌≤◌};
ghost use Rattle.std.proofs.lemmas.List.Edits.{sets};
ghost use Rattle.reader.specs.Answer.{reply, kept};
ghost use Rattle.accounts.specs.Accounted.{account_outcome};
ghost use Rattle.accounts.specs.Accounted.{places};
ghost use Rattle.c_answers.specs.Accounts.{listed};

use accounts::Account;
use checks::Refusal;

// Writes numbers to the front of a list.
fn copy_front(numbers: &[u32], list: &mut [u32])
    requires { length numbers.now ≤ length list.old }
    ensures { list.new ≡ sets list.old 0 numbers.now }
{
    list[..numbers.len()].copy_from_slice(numbers);
}

// Copies what an account lists into a list, unless that is too short: the last refusal.
fn lend(account: Account, list: &mut [u32]) -> Result<usize, Refusal>
    requires { account.count ≤ places }
    ensures value { result ≡ reply (length list.old) (listed account) }
    ensures list_after { list.new ≡ kept list.old (listed account) }
{
    let count = account.count;
    if list.len() < count {
        return Err(Refusal::NoRoom);
    }
    let numbers = account.list;
    copy_front(&numbers[..count], list);
    Ok(count)
}

// The account of a settlement of a ticket, copied into a list.
pub fn lend_account(ticket: &[u8], settlement: &[u8], list: &mut [u32]) -> Result<usize, Refusal>
    ensures value { result ≡ reply (length list.old) (account_outcome ticket.now settlement.now) }
    ensures list_after { list.new ≡ kept list.old (account_outcome ticket.now settlement.now) }
{
    lend(accounts::account(ticket, settlement)?, list)
}
