// Where each field of a record lies, as an offset from the record's start: the numbers of specs/Layout.antt.

// ---- the start of every record: its length, u32, and at 4 its kind

// kind, u16
pub const KIND_AT: usize = 4;

// ---- head: 26 bytes

// points N, u32
pub const HEAD_POINTS: usize = 6;
// rows R, u32
pub const HEAD_ROWS: usize = 10;
// mode, u16: bit 0 update, bit 1 warm
pub const HEAD_MODE: usize = 14;
// resweeps, u16
pub const HEAD_RESWEEPS: usize = 16;
// warm coefficient, f32
pub const HEAD_WARM: usize = 18;
// least strain, f32
pub const HEAD_LEAST: usize = 22;

pub const HEAD_END: usize = 26;

// ---- point: 30 bytes

// position, 3 f32
pub const POINT_POSITION: usize = 6;
// velocity, 3 f32
pub const POINT_VELOCITY: usize = 18;

pub const POINT_END: usize = 30;

// ---- the start of every row

// colour, u16
pub const ROW_COLOUR: usize = 6;
// strained, u16
pub const ROW_STRAINED: usize = 8;
// 4 ids, u32
pub const ROW_IDS: usize = 14;
// `pos`, 12 f32
pub const ROW_POS: usize = 30;
// `im`, 4 f32
pub const ROW_IM: usize = 78;

// ---- scalar row: 182 bytes

// type, u16: 0 distance, 1 dihedral, 2 cell volume
pub const SCALAR_TYPE: usize = 10;
// count, u16
pub const SCALAR_COUNT: usize = 12;
// `grad`, 12 f32
pub const SCALAR_GRAD: usize = 94;
// `rest`, f32
pub const SCALAR_REST: usize = 142;
// `erp_inv_dt`, f32
pub const SCALAR_ERP_INV_DT: usize = 146;
// `cfm_coeff`, f32
pub const SCALAR_CFM_COEFF: usize = 150;
// `inv_lhs`, f32
pub const SCALAR_INV_LHS: usize = 154;
// `cfm_gain`, f32
pub const SCALAR_CFM_GAIN: usize = 158;
// `rhs`, f32
pub const SCALAR_RHS: usize = 162;
// `impulse`, f32
pub const SCALAR_IMPULSE: usize = 166;
// `peak_impulse`, f32
pub const SCALAR_PEAK_IMPULSE: usize = 170;
// `impulse_bounds`, the lower, f32
pub const SCALAR_LOWER: usize = 174;
// `impulse_bounds`, the upper, f32
pub const SCALAR_UPPER: usize = 178;

pub const SCALAR_END: usize = 182;

// ---- elastic rows, up to where the two kinds part

// inverted, u16
pub const ELASTIC_INVERTED: usize = 10;
// u16: `volumetric` of a corotational row, 0 of a neo-Hookean one
pub const ELASTIC_FOURTH: usize = 12;
// `coeffs`, 12 f32
pub const ELASTIC_COEFFS: usize = 94;
// `inv_rest_matrix`, 9 f32
pub const ELASTIC_INV_REST_MATRIX: usize = 142;
// `rotation`, 4 f32, xyzw
pub const ELASTIC_ROTATION: usize = 178;
// `rot_mat`, 9 f32
pub const ELASTIC_ROT_MAT: usize = 194;
// `inv_a`, 36 f32
pub const ELASTIC_INV_A: usize = 230;
// `strain_cap`, 6 f32
pub const ELASTIC_STRAIN_CAP: usize = 374;
// `strain`, 6 f32
pub const ELASTIC_STRAIN: usize = 398;
// `strain_impulse`, 6 f32
pub const ELASTIC_STRAIN_IMPULSE: usize = 422;
// `vol_impulse`, f32
pub const ELASTIC_VOL_IMPULSE: usize = 446;

pub const ELASTIC_END: usize = 450;

// ---- corotational row: 618 bytes

// `erp_strain`, 6 f32
pub const CORO_ERP_STRAIN: usize = 450;
// `cfm_strain`, 6 f32
pub const CORO_CFM_STRAIN: usize = 474;
// `erp_vol`, f32
pub const CORO_ERP_VOL: usize = 498;
// `cfm_coeff_vol`, f32
pub const CORO_CFM_COEFF_VOL: usize = 502;
// `vol_cap`, f32
pub const CORO_VOL_CAP: usize = 506;
// `grad_vol`, 12 f32
pub const CORO_GRAD_VOL: usize = 510;
// `cfm_gain_vol`, f32
pub const CORO_CFM_GAIN_VOL: usize = 558;
// `rhs_vol`, f32
pub const CORO_RHS_VOL: usize = 562;
// `b`, 6 f32
pub const CORO_B: usize = 566;
// `z`, 6 f32
pub const CORO_Z: usize = 590;
// `inv_s`, f32
pub const CORO_INV_S: usize = 614;

pub const CORO_END: usize = 618;

// ---- neo-Hookean row: 678 bytes

// `dt`, f32
pub const NEO_DT: usize = 450;
// `mu`, f32
pub const NEO_MU: usize = 454;
// `lambda`, f32
pub const NEO_LAMBDA: usize = 458;
// `damping`, 6 f32
pub const NEO_DAMPING: usize = 462;
// `stiffness_strain`, 6 f32
pub const NEO_STIFFNESS_STRAIN: usize = 486;
// `m`, 36 f32
pub const NEO_M: usize = 510;
// `dt_grad`, 6 f32
pub const NEO_DT_GRAD: usize = 654;

pub const NEO_END: usize = 678;
