// Linear algebra of the soft rows, after soft_element_linalg.rs: the eigen-decomposition of a symmetric matrix, the outer product, the
// cofactor matrix.
#![tactic(auto)]

ghost use Rattle.std.specs.Prelude.{◌≡◌};
ghost use Rattle.linalg.specs.Eigen as spec;
ghost use Rattle.linalg.specs.Products as products;
ghost use Rattle.linalg.specs.Steps as steps;

mod jacobi; // the steps of a sweep

use jacobi::Turning;
use vector::{Mat3, Vec3};

// The eigenvalues, and the eigenvectors as columns.
#[repr(C)]
#[derive(Clone, Copy)]
pub struct Eigen {
    pub values: Vec3,
    pub vectors: Mat3,
}

// The values on the diagonal, and vector k from column k. Under the name of its rule, and used once: a `From` would be no plainer.
fn eigen_of(t: Turning) -> Eigen
    ensures { result ≡ spec.eigen_of (steps.state_of t) }
{
    let Turning { a, v } = t;
    Eigen {
        values: Vec3 {
            x: a[0][0],
            y: a[1][1],
            z: a[2][2],
        },
        vectors: Mat3 {
            x: Vec3 {
                x: v[0][0],
                y: v[1][0],
                z: v[2][0],
            },
            y: Vec3 {
                x: v[0][1],
                y: v[1][1],
                z: v[2][1],
            },
            z: Vec3 {
                x: v[0][2],
                y: v[1][2],
                z: v[2][2],
            },
        },
    }
}

// Cyclic Jacobi on rows: in a sweep the matrix and its vectors are turned pair by pair.
pub fn symmetric_eigen(m: Mat3) -> Eigen
    ensures { result ≡ spec.symmetric_eigen m }
{
    let mut t = Turning {
        // The rows of m, which is held by columns: they are made here alone.
        a: [
            [m.x.x, m.y.x, m.z.x],
            [m.x.y, m.y.y, m.z.y],
            [m.x.z, m.y.z, m.z.z],
        ],
        v: [[1.0f32, 0.0, 0.0], [0.0, 1.0, 0.0], [0.0, 0.0, 1.0]],
    };
    for _ in 0usize..8 {
        if jacobi::is_settled(t.a) {
            break;
        }
        t.turn::<0, 1>();
        t.turn::<0, 2>();
        t.turn::<1, 2>();
    }
    eigen_of(t)
}

// The outer product `a bᵀ`.
#[tactic(auto, unfolding(crate::specs::Products::outer_product))]
pub fn outer_product(a: Vec3, b: Vec3) -> Mat3
    ensures { result ≡ products.outer_product a b }
{
    Mat3 {
        x: a * b.x,
        y: a * b.y,
        z: a * b.z,
    }
}

// The cofactor matrix `∂det(F)/∂F`.
#[tactic(auto, unfolding(crate::specs::Products::cofactor))]
pub fn cofactor(f: Mat3) -> Mat3
    ensures { result ≡ products.cofactor f }
{
    Mat3 {
        x: f.y.cross(f.z),
        y: f.z.cross(f.x),
        z: f.x.cross(f.y),
    }
}
