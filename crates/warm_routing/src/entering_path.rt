use crate::path_search::Waiting;
use net_core::{List, Path};
use warm_basis::{Column, Entrant, Share, Shortage, beyond_key, is_counted, need_of};

/// The slack of the link whose slope is least, if it is below 0.
pub(crate) fn entering_slack(slopes: &[i64]) -> Option<Entrant> {
    let mut at = 0;
    let mut slope = 0;
    for e in 0..slopes.len() {
        if slopes[e] < slope {
            at = e;
            slope = slopes[e];
        }
    }
    if slope < 0 {
        Some(Entrant {
            column: Column::Slack(at),
            slope,
        })
    } else {
        None
    }
}

/// What is short changes by this with each unit of a path.
fn slope_of(shortage: &Shortage, keys: &[Path], shares: &[Share], waiting: &Waiting) -> i64 {
    let slope = beyond_key(
        shortage.slopes.items(),
        keys,
        waiting.demand,
        waiting.path.items(),
    );
    if slope < 0 && is_counted(shares, waiting.demand) {
        slope.wrapping_add(shortage.den)
    } else {
        slope
    }
}

/// The waiting path that takes most off what is short if it carries all of its demand.
pub(crate) fn entering_path(
    shortage: &Shortage,
    keys: &[Path],
    shares: &[Share],
    needs: &[i128],
    waiting: &mut List<Waiting>,
) -> Option<Entrant> {
    let mut best = 0;
    let mut least = 0;
    let mut most = 0i128;
    let all = waiting.items();
    for k in 0..all.len() {
        let slope = slope_of(shortage, keys, shares, &all[k]);
        if slope < 0 {
            let gain = (slope as i128).wrapping_mul(need_of(needs, all[k].demand));
            if gain < most {
                best = k;
                least = slope;
                most = gain;
            }
        }
    }
    if least == 0 || best >= waiting.len() {
        return None;
    }
    let Waiting { demand, path, .. } = waiting.remove(best);
    Some(Entrant {
        column: Column::Carry(demand, path),
        slope: least,
    })
}
