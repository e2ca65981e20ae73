//! A module by its bytes: registers and roles that are read, cells that are damaged, and the access control points.
use cca_roles::{AccessPoints, MODULE_LEN, RoleFault, Roles, open_roles};
use key_cells::{Lease, Workbench};
use master_registers::{LoadFault, NewState, Pattern, Registers, load};
use slot_disk::{Disk, MemoryDisk};
use std::alloc::Global;
use std::process::Abort;

/// What the registers of a module of these bytes are.
fn loaded(rt: &impl Abort, alloc: Global, image: &[u8]) -> Result<Registers, LoadFault> {
    let mut module = MemoryDisk::from_image(alloc, image, 1).expect(rt, "a disk");
    assert!(rt; module.size() >= 1_536);
    let mut bench = Workbench::new();
    let mut lease = Lease::open(&mut bench);
    load(&mut module, &mut lease)
}

fn registers(
    new_state: NewState,
    current_pattern: Option<Pattern>,
    old_pattern: Option<Pattern>,
) -> Registers {
    Registers {
        new_state,
        current_pattern,
        old_pattern,
    }
}

const ZEROS_PATTERN: Pattern = Pattern {
    bytes: [0x86, 0x2e, 0x4f, 0x6e, 0x22, 0xd5, 0x5a, 0xe0],
};

const TWOS_PATTERN: Pattern = Pattern {
    bytes: [0x8e, 0x10, 0x4d, 0x69, 0x87, 0xe6, 0xf2, 0x0a],
};

const THREES_PATTERN: Pattern = Pattern {
    bytes: [0xfd, 0x08, 0x31, 0x44, 0x92, 0x1e, 0xea, 0x80],
};

/// A body whose three registers are full, with the byte at one place another one.
fn full_body(at: usize, byte: u8) -> [u8; 192] {
    let mut body = [0; 192];
    body[..4].copy_from_slice(&[1, 2, 1, 1]);
    body[8..32].fill(0x11);
    body[32..56].fill(0x22);
    body[56..80].fill(0x33);
    body[at % 192] = byte;
    body
}

/// A body whose contents are zero, with these states.
fn zero_body(version: u8, new: u8, current: u8, old: u8) -> [u8; 192] {
    let mut body = [0; 192];
    body[..4].copy_from_slice(&[version, new, current, old]);
    body
}

/// The image of one cell that selects a body.
fn image_of(selector: u8, body: &[u8; 192]) -> [u8; 1536] {
    let mut image = [0; 1536];
    image[0] = selector;
    if selector % 2 == 0 {
        image[512..704].copy_from_slice(body);
    } else {
        image[1024..1216].copy_from_slice(body);
    }
    image
}

/// Bodies of the table, with the registers that they are.
fn whole_bodies() -> [([u8; 192], Registers); 5] {
    let twos = Some(TWOS_PATTERN);
    let threes = Some(THREES_PATTERN);
    let empty = registers(NewState::Empty, None, None);
    [
        (full_body(0, 1), registers(NewState::Full, twos, threes)),
        (full_body(1, 1), registers(NewState::Partial, twos, threes)),
        (zero_body(0, 0, 0, 0), empty),
        (zero_body(1, 0, 0, 0), empty),
        (
            zero_body(1, 2, 1, 0),
            registers(NewState::Full, Some(ZEROS_PATTERN), None),
        ),
    ]
}

/// The places of full registers and the bytes there that are damage.
fn broken_bytes() -> [(usize, u8); 12] {
    [
        // another version, and states that there aren't
        (0, 7),
        (0, 0),
        (1, 3),
        (2, 2),
        (3, 2),
        // contents of an empty register, and bytes outside the table
        (1, 0),
        (2, 0),
        (3, 0),
        (4, 1),
        (7, 1),
        (80, 1),
        (191, 1),
    ]
}

/// Bodies that are damaged: bytes of full registers, no version, old without current, and old with the pattern of current.
fn damaged_bodies() -> [[u8; 192]; 15] {
    let mut bodies = [zero_body(0, 1, 0, 0); 15];
    bodies[1] = zero_body(1, 0, 0, 1);
    bodies[2] = zero_body(1, 0, 1, 1);
    for (number, (at, byte)) in broken_bytes().iter().enumerate() {
        bodies[(3 + number) % 15] = full_body(*at, *byte);
    }
    bodies
}

/// Bodies of the table, in each of the two places of their cell. The patterns are from another implementation of SHA-1.
#[test]
fn bodies_of_registers(rt: HostRuntime) {
    for (body, held) in whole_bodies() {
        assert!(rt; loaded(&rt, rt.alloc(), &image_of(0, &body)) == Ok(held));
        assert!(rt; loaded(&rt, rt.alloc(), &image_of(5, &body)) == Ok(held));
    }
    for body in damaged_bodies() {
        let found = loaded(&rt, rt.alloc(), &image_of(5, &body));
        assert!(rt; found == Err(LoadFault::Damaged), "{body:?}");
    }
}

/// A module whose cells have these bodies.
fn module_of(rt: &impl Abort, alloc: Global, bodies: &[(usize, [u8; 192])]) -> MemoryDisk {
    let mut image = vec![in alloc; 0u8; MODULE_LEN as usize].expect(rt, "an image");
    for (cell, body) in bodies {
        put(&mut image, *cell, body);
    }
    MemoryDisk::from_image(alloc, &image, 1).expect(rt, "a disk")
}

/// What opening the roles of a module comes to, whose cells have these bodies.
fn opened(rt: &impl Abort, alloc: Global, bodies: &[(usize, [u8; 192])]) -> Result<(), RoleFault> {
    let mut module = module_of(rt, alloc, bodies);
    assert!(rt; module.size() == MODULE_LEN);
    let mut bench = Workbench::new();
    let mut lease = Lease::open(&mut bench);
    open_roles(&mut module, &mut lease, &mut Roles::new())
}

/// Puts a body where the first selector of a cell points.
fn put(image: &mut [u8], cell: usize, body: &[u8; 192]) {
    let at = 1_536 * (cell % 33) + 512;
    if at + 192 <= image.len() {
        image[at..at + 192].copy_from_slice(body);
    }
}

/// The bytes of a role's body, each from the table of the format.
fn role_body(length: u8, name: [u8; 8], points: [u8; 4]) -> [u8; 192] {
    let mut body = [0; 192];
    body[0] = 1;
    body[1] = length;
    for at in 0..8 {
        body[2 + at] = name[at];
    }
    for at in 0..4 {
        body[10 + at] = points[at];
    }
    body
}

/// The body of the role TELLER with the byte at one place another one.
fn teller_with(at: usize, byte: u8) -> [u8; 192] {
    let mut body = role_body(6, *b"TELLER\0\0", [0, 0, 0, 0x0f]);
    body[at % 192] = byte;
    body
}

/// The bodies of two cells, and the first of them that is damaged.
type TwoRoles = (
    (usize, [u8; 192]),
    (usize, [u8; 192]),
    Result<(), RoleFault>,
);

/// The answer where this cell is damaged.
fn damaged(cell: u16) -> Result<(), RoleFault> {
    Err(RoleFault::Damaged(cell))
}

/// Roles, alone and beside others; a role in another cell than its own; a name that stands twice; and two damaged cells.
fn roles_in_cells() -> [TwoRoles; 8] {
    let teller = teller_with(0, 1);
    let clerk = role_body(5, *b"CLERK\0\0\0", [0, 0, 0, 1]);
    let default_role = role_body(7, *b"DEFAULT\0", [0, 0, 0, 1]);
    let bad = teller_with(0, 2);
    [
        ((2, teller), (32, clerk), Ok(())),
        ((1, default_role), (3, teller), Ok(())),
        ((1, teller), (3, clerk), damaged(1)),
        ((4, default_role), (3, clerk), damaged(4)),
        ((2, teller), (5, teller), damaged(5)),
        ((5, bad), (4, bad), damaged(4)),
        ((2, bad), (1, clerk), damaged(1)),
        ((32, teller_with(191, 1)), (3, clerk), damaged(32)),
    ]
}

/// Bytes of a role that read as none: another version, lengths that there aren't, a name that is none or isn't filled
/// with zeros, bits that are no points, and a byte outside the table.
const BROKEN_ROLES: [(usize, u8); 8] = [
    (0, 2),
    (1, 0),
    (1, 5),
    (1, 9),
    (2, b't'),
    (9, b'S'),
    (10, 0x20),
    (14, 1),
];

/// The first damaged cell is named.
#[test]
fn bodies_of_roles(rt: HostRuntime) {
    for (first, second, wanted) in roles_in_cells() {
        let found = opened(&rt, rt.alloc(), &[first, second]);
        assert!(rt; found == wanted, "{first:?} {second:?}");
    }
    for (at, byte) in BROKEN_ROLES {
        let found = opened(&rt, rt.alloc(), &[(2, teller_with(at, byte))]);
        assert!(rt; found == Err(RoleFault::Damaged(2)), "{byte} at {at}");
    }
}

/// Each point has its value, and no other value is one.
#[test]
fn points(rt: HostRuntime) {
    for (points, bits) in [
        (AccessPoints::ENC, 0x0000_0001),
        (AccessPoints::DEC, 0x0000_0002),
        (AccessPoints::MGN, 0x0000_0004),
        (AccessPoints::MVR, 0x0000_0008),
        (AccessPoints::KYT, 0x0000_0010),
        (AccessPoints::CKI, 0x0000_0020),
        (AccessPoints::RNG, 0x0000_0040),
        (AccessPoints::KGN_OP, 0x0000_0080),
        (AccessPoints::KGN_PAIR, 0x0000_0100),
        (AccessPoints::KGN_OUT, 0x0000_0200),
        (AccessPoints::KIM, 0x0000_0400),
        (AccessPoints::KEX, 0x0000_0800),
        (AccessPoints::PEX, 0x0000_1000),
        (AccessPoints::KTC_CURRENT, 0x0000_2000),
        (AccessPoints::KTC_NEW, 0x0000_4000),
        (AccessPoints::KRC, 0x0000_8000),
        (AccessPoints::KRW, 0x0001_0000),
        (AccessPoints::KRR, 0x0002_0000),
        (AccessPoints::KRD, 0x0004_0000),
        (AccessPoints::KRL, 0x0008_0000),
        (AccessPoints::MK_FIRST, 0x0010_0000),
        (AccessPoints::MK_COMBINE, 0x0020_0000),
        (AccessPoints::MK_CLEAR, 0x0040_0000),
        (AccessPoints::MK_SET, 0x0080_0000),
        (AccessPoints::ROLES, 0x0100_0000),
        (AccessPoints::REENC, 0x0200_0000),
        (AccessPoints::KPI_FIRST, 0x0400_0000),
        (AccessPoints::KPI_COMBINE, 0x0800_0000),
        (AccessPoints::KTR, 0x1000_0000),
    ] {
        assert!(rt; points.bits() == bits, "{bits:x}");
    }
    assert!(rt; AccessPoints::all().bits() == 0x1fff_ffff);
    for bits in [0x2000_0000, 0x2000_0001, 0x8000_0000, 0xffff_ffff] {
        assert!(rt; AccessPoints::from_bits(bits).is_none(), "{bits:x}");
    }
}
