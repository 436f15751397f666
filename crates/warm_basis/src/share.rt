use crate::numbers::{common_multiple, over};
use crate::row::BasisRow;
use net_core::{List, NoMemory};
use std::alloc::Global;

/// What is left to a demand's key once the rows of the demand have their parts, over `den`.
#[derive(Clone, Copy)]
pub struct Share {
    /// The place of the demand.
    pub demand: usize,
    pub(crate) den: i64,
    /// What the key carries; below 0 that much is short.
    pub(crate) value: i128,
    /// What the key loses to a unit of the column that enters.
    pub(crate) product: i128,
    /// Whether its value counts in what is short.
    pub counts: bool,
}

/// The place of a demand's share, which is past the end where there is none.
pub(crate) fn place_of(shares: &[Share], demand: usize) -> usize {
    for k in 0..shares.len() {
        if shares[k].demand == demand {
            return k;
        }
    }
    shares.len()
}

/// Whether the value of a demand's key counts in what is short. It takes time in the shares.
pub fn is_counted(shares: &[Share], demand: usize) -> bool {
    let at = place_of(shares, demand);
    at < shares.len() && shares[at].counts
}

/// Takes a row's part away.
fn take_part(share: &mut Share, row: &BasisRow) -> Option<()> {
    let den = common_multiple(share.den, row.den)?;
    let up = over(den, share.den) as i128;
    let part = over(den, row.den) as i128;
    share.den = den;
    share.value = share
        .value
        .wrapping_mul(up)
        .wrapping_sub(row.value.wrapping_mul(part));
    Some(())
}

/// What the demand at a place needs, and 0 past the last one. It takes constant time.
pub fn need_of(needs: &[i128], demand: usize) -> i128 {
    if demand < needs.len() {
        needs[demand]
    } else {
        0
    }
}

/// The key of a demand without rows, where a column of some demand enters.
pub(crate) fn whole_share(needs: &[i128], demand: usize, entering: Option<usize>) -> Share {
    Share {
        demand,
        den: 1,
        value: need_of(needs, demand),
        product: if entering == Some(demand) { 1 } else { 0 },
        counts: false,
    }
}

/// The place of the share of a row's demand, which is added where there is none.
fn share_at(
    shares: &mut List<Share>,
    places: &mut [usize],
    demand: usize,
    needs: &[i128],
) -> Result<usize, NoMemory> {
    let count = shares.len();
    if demand >= places.len() {
        return Ok(usize::MAX);
    }
    if places[demand] >= count {
        shares.push(whole_share(needs, demand, None))?;
        places[demand] = count;
    }
    Ok(places[demand])
}

/// Takes a row's part from its demand's key.
fn add_row(
    shares: &mut List<Share>,
    places: &mut [usize],
    row: &mut BasisRow,
    needs: &[i128],
) -> Result<Option<()>, NoMemory> {
    row.share = usize::MAX;
    let Some(demand) = row.column.demand() else {
        return Ok(Some(()));
    };
    let at = share_at(shares, places, demand, needs)?;
    let all = shares.items_mut();
    if at < all.len() {
        row.share = at;
        return Ok(take_part(&mut all[at], row));
    }
    Ok(None)
}

/// No demand has a share: the list that `shares_of` is lent, and leaves as it was. It takes time and memory in the needs.
pub fn no_places(alloc: Global, needs: &[i128]) -> Result<List<usize>, NoMemory> {
    List::filled(alloc, usize::MAX, needs.len())
}

/// Takes the places of shares out of a list again.
fn clear_places(places: &mut [usize], shares: &[Share]) {
    for share in shares {
        if share.demand < places.len() {
            places[share.demand] = usize::MAX;
        }
    }
}

/// What is left to the key of each demand that has rows; `None` where a number is too wide. Each row gets the place of its demand's.
///
/// It takes time and memory in the rows.
pub fn shares_of(
    alloc: Global,
    rows: &mut [BasisRow],
    needs: &[i128],
    places: &mut [usize],
) -> Result<Option<List<Share>>, NoMemory> {
    let mut shares = List::from_vec(Vec::with_capacity(alloc, rows.len())?);
    for i in 0..rows.len() {
        if add_row(&mut shares, places, &mut rows[i], needs)?.is_none() {
            return Ok(None);
        }
    }
    clear_places(places, shares.items());
    Ok(Some(shares))
}

/// What the keys lose to a unit of the column that enters, by the products of the rows.
pub(crate) fn set_losses(shares: &mut [Share], rows: &[BasisRow], entering: Option<usize>) {
    for k in 0..shares.len() {
        let own = entering == Some(shares[k].demand);
        shares[k].product = if own { shares[k].den as i128 } else { 0 };
    }
    for row in rows {
        let at = row.share;
        if row.product != 0 && at < shares.len() {
            let part = over(shares[at].den, row.den) as i128;
            let loss = (row.product as i128).wrapping_mul(part);
            shares[at].product = shares[at].product.wrapping_sub(loss);
        }
    }
}
