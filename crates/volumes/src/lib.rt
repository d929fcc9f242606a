// The root of a volume, by a table of least volumes (02, request P1).
#![tactic(auto)]

ghost use Rattle.std.specs.Prelude.{◌≡◌, ◌<◌, ◌≤◌};
ghost use Rattle.volumes.specs.Root.{root_of};
ghost use Rattle.volumes.specs.Tables.{halved};

// For each step k from 0 to 342 the least volume, in m³, whose root is at least 1000 + k.
static LEAST_VOLUMES: [u32; 343] = [
    1, 2, 2, 2, 2, 2, 2, 2, 2, 2, 2, 2, 2, 2, 2, 2, 2, 2, 2, 2, 2, 2, 2, 3, 3, 3, 3, 3, 3, 3, 3, 3,
    3, 3, 3, 3, 4, 4, 4, 4, 4, 4, 4, 4, 4, 4, 5, 5, 5, 5, 5, 5, 5, 6, 6, 6, 6, 6, 6, 6, 7, 7, 7, 7,
    7, 8, 8, 8, 8, 9, 9, 9, 9, 10, 10, 10, 10, 11, 11, 11, 12, 12, 12, 13, 13, 13, 14, 14, 14, 15,
    15, 16, 16, 17, 17, 18, 18, 19, 19, 20, 20, 21, 21, 22, 23, 23, 24, 24, 25, 26, 27, 27, 28, 29,
    30, 31, 31, 32, 33, 34, 35, 36, 37, 38, 39, 40, 41, 42, 44, 45, 46, 47, 49, 50, 51, 53, 54, 56,
    57, 59, 61, 62, 64, 66, 67, 69, 71, 73, 75, 77, 79, 82, 84, 86, 88, 91, 93, 96, 98, 101, 104,
    107, 110, 113, 116, 119, 122, 125, 129, 132, 136, 139, 143, 147, 151, 155, 159, 163, 168, 172,
    177, 182, 186, 191, 196, 202, 207, 213, 218, 224, 230, 236, 242, 249, 255, 262, 269, 276, 283,
    291, 299, 306, 315, 323, 331, 340, 349, 358, 367, 377, 387, 397, 407, 418, 429, 440, 451, 463,
    475, 488, 500, 513, 526, 540, 554, 568, 583, 598, 613, 629, 645, 662, 679, 696, 714, 733, 751,
    771, 790, 810, 831, 852, 874, 896, 919, 942, 966, 991, 1016, 1042, 1068, 1095, 1123, 1151,
    1180, 1210, 1241, 1272, 1304, 1336, 1370, 1404, 1440, 1476, 1513, 1550, 1589, 1629, 1670, 1711,
    1754, 1798, 1842, 1888, 1935, 1983, 2032, 2082, 2134, 2187, 2241, 2296, 2353, 2411, 2470, 2531,
    2593, 2657, 2722, 2789, 2858, 2928, 2999, 3073, 3148, 3225, 3303, 3384, 3467, 3551, 3637, 3726,
    3816, 3909, 4004, 4101, 4200, 4302, 4406, 4512, 4621, 4733, 4847, 4964, 5083, 5206, 5331, 5459,
    5590, 5724, 5861, 6001, 6145, 6292, 6442, 6596, 6753, 6914, 7079, 7247, 7420, 7596, 7777, 7961,
    8150, 8343, 8540, 8742, 8949, 9160, 9377, 9598, 9824,
];

// How many steps above 1000 a root is: the last whose least volume is at most the given one, found as by halves.
fn steps(volume: u32) -> usize
    ensures { (result ≡ halved volume 9 0 256) × (result < 343) }
{
    LEAST_VOLUMES
        .partition_point(|least| *least <= volume)
        .saturating_sub(1)
}

// K of a volume in m³, for every volume: 0 for 0, and that of 10,000 above it.
#[tactic(auto, using(crate::proofs::Laws::root_zero, crate::proofs::Carried::root_by_halves))]
pub fn root(volume: u32) -> u32
    ensures value { result ≡ root_of volume }
    ensures within { result ≤ 1342 }
{
    if volume == 0 {
        return 0;
    }
    1_000 + steps(volume) as u32
}
