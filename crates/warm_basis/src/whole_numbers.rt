/// The product of a row's numbers with as many others. It takes time that grows with their number, and no memory.
pub fn worth(nums: &[i64], others: &[i128]) -> i128 {
    let mut sum = 0i128;
    for e in 0..nums.len() {
        if e < others.len() && nums[e] != 0 {
            sum = sum.wrapping_add((nums[e] as i128).wrapping_mul(others[e]));
        }
    }
    sum
}

/// Divides each number by a positive one; by another one it leaves them. It takes time that grows with their number, and no memory.
pub fn divide(nums: &mut [i64], by: i64) {
    for e in 0..nums.len() {
        if by > 1 {
            nums[e] /= by;
        }
    }
}

/// The bits of all numbers of a row, without their signs. It takes time that grows with their number, and no memory.
pub fn bits_of(nums: &[i64]) -> u64 {
    let mut bits = 0;
    for e in 0..nums.len() {
        bits |= nums[e].unsigned_abs();
    }
    bits
}

/// Takes `less` times another row from `times` this row, in words. It takes time that grows with their length, and no memory.
pub fn mix(nums: &mut [i64], times: i64, less: i64, other: &[i64]) {
    let count = nums.len().min(other.len());
    if times == 1 && less == 1 {
        for e in 0..count {
            nums[e] = nums[e].wrapping_sub(other[e]);
        }
    } else if times == 1 && less == -1 {
        for e in 0..count {
            nums[e] = nums[e].wrapping_add(other[e]);
        }
    } else {
        for e in 0..count {
            nums[e] = nums[e]
                .wrapping_mul(times)
                .wrapping_sub(other[e].wrapping_mul(less));
        }
    }
}
